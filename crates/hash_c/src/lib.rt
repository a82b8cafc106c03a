//! The functions that C can call, in a static library. Their prototypes:
//!
//! ```c
//! struct hash_digest { uint8_t bytes[32]; };
//! struct hash_key { uint32_t inner[8]; uint32_t outer[8]; };
//!
//! void hash_sha256(const uint8_t *input, size_t len, struct hash_digest *digest);
//! void hash_prepare(const uint8_t *key, size_t len, struct hash_key *out);
//! void hash_mac(const struct hash_key *key, const uint8_t *message, size_t len, struct hash_digest *code);
//! void hash_hmac(const uint8_t *key, size_t key_len, const uint8_t *message, size_t len, struct hash_digest *code);
//! ```

#![tactic(auto)]

ghost use Rattle.std.specs.Prelude.{◌≡◌, ℕ, List};
ghost use Rattle.hash.specs.Hmac.{hmac};
ghost use Rattle.hash.specs.Keys.{prepared};
ghost use Rattle.hash.specs.Sha256.{sha256};

use hash::digests::sha256;
use hash::keys::{Key, hmac};

#[repr(C)]
#[derive(Clone, Copy)]
pub struct Digest {
    pub bytes: [u8; 32],
}

#[unsafe(no_mangle)]
pub extern "C" fn hash_sha256(input: &[u8], digest: &mut Digest)
    ensures { digest.new.bytes ≡ sha256 input.now }
{
    let bytes = sha256(input);
    *digest = Digest { bytes };
}

#[unsafe(no_mangle)]
pub extern "C" fn hash_prepare(key: &[u8], out: &mut Key)
    ensures { out.new ≡ prepared key.now }
{
    *out = Key::new(key);
}

#[unsafe(no_mangle)]
pub extern "C" fn hash_mac(key: &Key, message: &[u8], code: &mut Digest)
    ensures { (k : List ℕ) → key.now ≡ prepared k → code.new.bytes ≡ hmac k message.now }
{
    let bytes = key.mac(message);
    *code = Digest { bytes };
}

#[unsafe(no_mangle)]
pub extern "C" fn hash_hmac(key: &[u8], message: &[u8], code: &mut Digest)
    ensures { code.new.bytes ≡ hmac key.now message.now }
{
    let bytes = hmac(key, message);
    *code = Digest { bytes };
}
