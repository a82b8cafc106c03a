//! The register: 32 zeros at first, then for each digest that is put in the SHA-256 of the old value and the digest.

ghost use Rattle.std.specs.Prelude.{◌≡◌, reverse};
ghost use Rattle.sums.specs.Sums.{zeros, extended, sum_of};

use hash::hashers::Hasher;

#[derive(Clone, Copy)]
pub struct Register {
    pub sum: [u8; 32],
}

impl Register {
    /// As it is when the chip is switched on.
    pub fn empty() -> Register
        ensures { result.sum ≡ zeros }
    {
        Register { sum: [0; 32] }
    }

    /// With one digest more.
    pub fn put(self, digest: &[u8; 32]) -> Register
        ensures { result.sum ≡ extended self.sum digest.now }
    {
        let old = self.sum;
        let sum = Hasher::new().update(&old).update(digest).finish();
        Register { sum }
    }

    /// After these digests, the oldest first, were put into an empty register.
    pub fn of(digests: &[[u8; 32]]) -> Register
        ensures { result.sum ≡ sum_of (reverse digests.now) }
    {
        let mut register = Register::empty();
        for digest in digests {
            register = register.put(digest);
        }
        register
    }
}
