//! A key with a nonce: its blocks, and its stream over bytes that are lent to be turned.

ghost use Rattle.std.specs.Prelude.{◌≡◌, ◌+◌, ◌%◌, ◌^◌, ◌≤◌, length, bit_xor};
ghost use Rattle.std.specs.Simd.Lanes.{zip2};
ghost use Rattle.cipher.specs.Blocks.{state, block};
ghost use Rattle.cipher.specs.Streams.{keystream, chacha20};

use crate::lanes::{apart, beside};
use crate::rounds::mixed;
use crate::states::{bytes_of, joined, word};

/// A key and a nonce: for each value of the block counter they give a block.
#[derive(Clone, Copy)]
pub struct ChaCha20 {
    pub key: [u8; 32],
    pub nonce: [u8; 12],
}

// What is left of the stream past the end of the bytes is not used.
fn xor(bytes: &mut [u8], stream: &[u8])
    requires { length bytes.old ≤ length stream.now }
    ensures { bytes.new ≡ zip2 bit_xor bytes.old stream.now }
{
    // By index, since after a `zip` over `iter_mut` a proof knows nothing of the bytes (tried).
    for (i, byte) in bytes.iter_mut().enumerate() {
        *byte ^= stream[i];
    }
}

impl ChaCha20 {
    // Four constants, the key, the block counter and the nonce.
    fn state(self, counter: u32) -> [u32; 16]
        ensures { result ≡ state self.key counter self.nonce }
    {
        // Word by word: of an array by `from_fn`, at a length that is a parameter, no element was proved (tried).
        [
            0x6170_7865,
            0x3320_646e,
            0x7962_2d32,
            0x6b20_6574,
            word(&self.key, 0),
            word(&self.key, 1),
            word(&self.key, 2),
            word(&self.key, 3),
            word(&self.key, 4),
            word(&self.key, 5),
            word(&self.key, 6),
            word(&self.key, 7),
            counter,
            word(&self.nonce, 0),
            word(&self.nonce, 1),
            word(&self.nonce, 2),
        ]
    }

    /// 64 bytes of the stream, for one value of the block counter.
    pub fn block(self, counter: u32) -> [u8; 64]
        ensures { result ≡ block self.key counter self.nonce }
    {
        bytes_of(mixed(self.state(counter)))
    }

    /// The blocks for four values of the counter, one after the other: four states side by side, so that each step of the
    /// rounds is one step for all of them.
    pub fn four_blocks(self, counter: u32) -> [u8; 256]
        ensures { result ≡ keystream self.key counter self.nonce 4 }
    {
        let [a, b, c, d] = [0, 1, 2, 3].map(
            |i: u32| -> [u32; 16]
                ensures { result ≡ state self.key ((counter + i) % 2 ^ 32) self.nonce }
            { self.state(counter.wrapping_add(i)) },
        );
        joined(&apart(mixed(beside(a, b, c, d))).map(bytes_of))
    }

    // Four blocks side by side take less time than two alone, so they serve for any rest of more than one.
    fn turn(self, counter: u32, bytes: &mut [u8])
        ensures { bytes.new ≡ chacha20 self.key counter self.nonce bytes.old }
    {
        // By place, since after `chunks_mut` a proof knows nothing of the bytes (tried), and a `for` over `step_by(256)` takes
        // 184 ns for 64 bytes, where this takes 177.
        let mut at = 0;
        let mut n = counter;
        while bytes.len() - at > 64 {
            let end = bytes.len().min(at + 256);
            xor(&mut bytes[at..end], &self.four_blocks(n));
            n = n.wrapping_add(4);
            at = end;
        }
        if at < bytes.len() {
            let end = bytes.len();
            xor(&mut bytes[at..end], &self.block(n));
        }
    }

    /// Encrypts or decrypts the bytes where they lie. The first block has the counter that is given; after 2^32 - 1 comes 0.
    pub fn apply_keystream(self, counter: u32, bytes: &mut [u8])
        ensures exact { bytes.new ≡ chacha20 self.key counter self.nonce bytes.old }
        ensures back { chacha20 self.key counter self.nonce bytes.new ≡ bytes.old }
    {
        self.turn(counter, bytes);
    }
}
