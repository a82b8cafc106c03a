//! SHA-256 in parts: a state by value that takes further bytes.

ghost use Rattle.std.specs.Prelude.{◌≡◌, ℕ, List, [], ◌++◌, length};
ghost use Rattle.hash.specs.Hashers.{after};
ghost use Rattle.hash.specs.Sha256.{compressed, initial, sha256};

use crate::blocks::{absorb, compress};
use crate::buffers::fill;
use crate::constants::INITIAL;
use crate::endings::close;

/// The hash value over the whole blocks, the bytes after them with zeros to a block, and how many bytes came, modulo 2^64.
// The message itself stands in the contracts and not in a ghost field, since a `Copy` struct holds no ghost data. The tail is
// a fixed block with its length in `len`, as a hasher takes no memory from a heap.
#[derive(Clone, Copy)]
pub struct Hasher {
    h: [u32; 8],
    tail: [u8; 64],
    len: u64,
}

impl Hasher {
    pub fn new() -> Hasher
        ensures { result ≡ after [] }
    {
        Hasher {
            h: INITIAL,
            tail: [0; 64],
            len: 0,
        }
    }

    /// A hasher that has taken one block, which led to `h`.
    pub(crate) fn after_block(h: [u32; 8]) -> Hasher
        ensures { (b : List ℕ) → length b ≡ 64 → h ≡ compressed initial b → result ≡ after b }
    {
        Hasher {
            h,
            tail: [0; 64],
            len: 64,
        }
    }

    pub fn update(self, input: &[u8]) -> Hasher
        ensures { (m : List ℕ) → self ≡ after m → result ≡ after (m ++ input.now) }
    {
        let used = (self.len % 64) as usize;
        let len = self.len.wrapping_add(input.len() as u64);
        let mut tail = self.tail;
        if input.len() < 64 - used {
            tail[used..used + input.len()].copy_from_slice(input);
            return Hasher { tail, len, ..self };
        }
        let (first, more) = input.split_at(64 - used);
        tail[used..].copy_from_slice(first);
        let h = compress(self.h, &tail);
        let (blocks, left) = more.as_chunks::<64>();
        Hasher {
            h: absorb(h, blocks),
            tail: fill(left),
            len,
        }
    }

    pub fn finish(self) -> [u8; 32]
        ensures { (m : List ℕ) → self ≡ after m → result ≡ sha256 m }
    {
        close(self.h, self.tail, self.len)
    }
}
