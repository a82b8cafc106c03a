//! Words from bytes and bytes from words, each word as four bytes, the least first.

ghost use Rattle.std.specs.Prelude.{◌≡◌, ◌+◌, ◌*◌, ◌≤◌, length};
ghost use Rattle.std.specs.List.{flat_map};
ghost use Rattle.cipher.specs.Blocks.{word, le32};

/// The i-th word of the bytes.
pub fn word(bytes: &[u8], i: usize) -> u32
    requires { 4 * i + 4 ≤ length bytes.now }
    ensures { result ≡ word bytes.now (4 * i) }
{
    let (quads, _) = bytes.as_chunks::<4>();
    u32::from_le_bytes(quads[i])
}

/// The parts, one after the other.
pub fn joined<const N: usize, const L: usize>(parts: &[[u8; N]]) -> [u8; L]
    requires { length parts.now * N ≡ L }
    ensures { result ≡ flat_map (λ part. part) parts.now }
{
    let mut all = [0; L];
    all.copy_from_slice(parts.as_flattened());
    all
}

/// Each word as four bytes.
pub fn bytes_of(words: [u32; 16]) -> [u8; 64]
    ensures { result ≡ flat_map le32 words }
{
    joined(&words.map(u32::to_le_bytes))
}
