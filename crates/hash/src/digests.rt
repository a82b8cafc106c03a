//! SHA-256 in one call.

ghost use Rattle.std.specs.Prelude.{◌≡◌};
ghost use Rattle.hash.specs.Sha256.{sha256};

use crate::constants::INITIAL;
use crate::endings::finish;

pub fn sha256(input: &[u8]) -> [u8; 32]
    ensures { result ≡ sha256 input.now }
{
    finish(INITIAL, 0, input)
}
