//! HMAC-SHA-256, with a key that is prepared once and used for many messages.

ghost use Rattle.std.specs.Prelude.{◌≡◌, ℕ, List, ◌++◌};
ghost use Rattle.hash.specs.Hashers.{after};
ghost use Rattle.hash.specs.Hmac.{hmac, inner_pad, key_block, xored};
ghost use Rattle.hash.specs.Keys.{prepared};

use crate::blocks::compress;
use crate::buffers::fill;
use crate::constants::INITIAL;
use crate::digests::sha256;
use crate::endings::finish;
use crate::hashers::Hasher;

/// The hash values after the blocks that HMAC puts before the message and before its digest.
// Which key they are of stands in the contracts and not in a ghost field: C hands keys in, and a `Copy` struct holds no
// ghost data.
#[repr(C)]
#[derive(Clone, Copy)]
pub struct Key {
    inner: [u32; 8],
    outer: [u32; 8],
}

// The key as a block: a key longer than a block is hashed first.
fn block_of(key: &[u8]) -> [u8; 64]
    ensures { result ≡ key_block key.now }
{
    if key.len() > 64 {
        return fill(&sha256(key));
    }
    fill(key)
}

// With the array's `map` the code of a short message takes a quarter more time.
fn xor(mut block: [u8; 64], pad: u8) -> [u8; 64]
    ensures { result ≡ xored block pad }
{
    for byte in block.iter_mut() {
        *byte ^= pad;
    }
    block
}

impl Key {
    /// A key of any length.
    pub fn new(key: &[u8]) -> Key
        ensures { result ≡ prepared key.now }
    {
        let block = block_of(key);
        let inner = compress(INITIAL, &xor(block, 0x36));
        let outer = compress(INITIAL, &xor(block, 0x5c));
        Key { inner, outer }
    }

    /// The code of one message.
    pub fn mac(self, message: &[u8]) -> [u8; 32]
        ensures { (k : List ℕ) → self ≡ prepared k → result ≡ hmac k message.now }
    {
        let digest = finish(self.inner, 64, message);
        finish(self.outer, 64, &digest)
    }

    /// A hasher for a message in parts, which `end` takes back.
    pub fn begin(self) -> Hasher
        ensures { (k : List ℕ) → self ≡ prepared k → result ≡ after (inner_pad k) }
    {
        Hasher::after_block(self.inner)
    }

    /// The code of the message that `hasher` has taken since `begin`.
    pub fn end(self, hasher: Hasher) -> [u8; 32]
        ensures { (k m : List ℕ) → self ≡ prepared k → hasher ≡ after (inner_pad k ++ m) → result ≡ hmac k m }
    {
        finish(self.outer, 64, &hasher.finish())
    }
}

pub fn hmac(key: &[u8], message: &[u8]) -> [u8; 32]
    ensures { result ≡ hmac key.now message.now }
{
    Key::new(key).mac(message)
}
