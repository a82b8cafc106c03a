//! Blocks of 64 bytes that a message does not fill.

ghost use Rattle.std.specs.Prelude.{◌≡◌, ◌*◌, ◌%◌, ◌^◌, ◌≤◌, ◌++◌, length, take};
ghost use Rattle.hash.specs.Blocks.{filled};
ghost use Rattle.hash.specs.Words.{be64};

/// A block that begins with `part` and goes on with zeros.
pub fn fill(part: &[u8]) -> [u8; 64]
    requires { length part.now ≤ 64 }
    ensures { result ≡ filled part.now }
{
    let mut block = [0; 64];
    block[..part.len()].copy_from_slice(part);
    block
}

/// A block whose last bytes say how many bits `len` bytes are.
pub fn with_length(mut block: [u8; 64], len: u64) -> [u8; 64]
    ensures { result ≡ take 56 block ++ be64 (len * 8 % 2 ^ 64) }
{
    block[56..].copy_from_slice(&len.wrapping_mul(8).to_be_bytes());
    block
}
