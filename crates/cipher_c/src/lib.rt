//! The functions that C can call, in a static library. No pointer may be null, and what is written may overlap nothing
//! else that is passed. Their prototypes:
//!
//! ```c
//! void cipher_block(const uint8_t key[32], uint32_t counter, const uint8_t nonce[12], uint8_t block[64]);
//! void cipher_apply_keystream(const uint8_t key[32], uint32_t counter, const uint8_t nonce[12], uint8_t *bytes, size_t length);
//! ```

#![tactic(auto)]

ghost use Rattle.std.specs.Prelude.{◌≡◌};
ghost use Rattle.cipher.specs.Blocks.{block};
ghost use Rattle.cipher.specs.Streams.{chacha20};

use cipher::ciphers::ChaCha20;

// Key, counter and nonce are three arguments here, since these are the C prototypes.
#[unsafe(no_mangle)]
pub extern "C" fn cipher_block(key: &[u8; 32], counter: u32, nonce: &[u8; 12], out: &mut [u8; 64])
    ensures { out.new ≡ block key.now counter nonce.now }
{
    let cipher = ChaCha20 {
        key: *key,
        nonce: *nonce,
    };
    *out = cipher.block(counter);
}

#[unsafe(no_mangle)]
pub extern "C" fn cipher_apply_keystream(
    key: &[u8; 32],
    counter: u32,
    nonce: &[u8; 12],
    bytes: &mut [u8],
)
    ensures { bytes.new ≡ chacha20 key.now counter nonce.now bytes.old }
{
    let cipher = ChaCha20 {
        key: *key,
        nonce: *nonce,
    };
    cipher.apply_keystream(counter, bytes);
}
