//! From the hash value and the end of the message to the digest.

ghost use Rattle.std.specs.Prelude.{◌≡◌, ℕ, ◌%◌, List, length};
ghost use Rattle.std.specs.List.{flat_map};
ghost use Rattle.hash.specs.Blocks.{filled};
ghost use Rattle.hash.specs.Hashers.{closed, finished};
ghost use Rattle.hash.specs.Words.{be32};

use crate::blocks::{absorb, compress};
use crate::buffers::{fill, with_length};

fn to_bytes(h: [u32; 8]) -> [u8; 32]
    ensures { result ≡ flat_map be32 h }
{
    let mut bytes = [0; 32];
    bytes.copy_from_slice(h.map(u32::to_be_bytes).as_flattened());
    bytes
}

/// The digest of a message of `len` bytes whose whole blocks led to `h`, and `tail` has what is left, filled with zeros.
// These are a hasher's three fields: as a method of `Hasher` it takes half a hundredth more time for a short message.
pub fn close(h: [u32; 8], tail: [u8; 64], len: u64) -> [u8; 32]
    ensures { (t : List ℕ) → length t ≡ len % 64 → tail ≡ filled t → result ≡ closed h t len }
{
    let used = (len % 64) as usize;
    let mut block = tail;
    block[used] = 0x80;
    if used < 56 {
        return to_bytes(compress(h, &with_length(block, len)));
    }
    let s = compress(h, &block);
    to_bytes(compress(s, &with_length([0; 64], len)))
}

/// The digest of a message of which the first `taken` bytes, whole blocks, led to `h`, and `input` is the rest.
pub fn finish(h: [u32; 8], taken: u64, input: &[u8]) -> [u8; 32]
    requires { taken % 64 ≡ 0 }
    ensures { result ≡ finished h taken input.now }
{
    let (blocks, left) = input.as_chunks::<64>();
    close(
        absorb(h, blocks),
        fill(left),
        taken.wrapping_add(input.len() as u64),
    )
}
