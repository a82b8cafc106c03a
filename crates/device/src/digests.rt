//! Strings of thirty-two bytes, and whether two are the same.

ghost use Rattle.std.specs.Prelude.{◌≡◌, Decides};
ghost use Rattle.std.specs.Str.{bytes_eq};
ghost use Rattle.std.specs.Cmp.Rules.{comparing};
ghost use Rattle.std.proofs.Common.{rules};

/// The digest of a program.
#[derive(Clone, Copy, Eq)]
pub struct Digest {
    pub bytes: [u8; 32],
}

// By hand, and that of data too: a derive's `==` has no clause that it decides whether the two are the same.
impl PartialEq for Digest {
    ghost eq = { λ x y. bytes_eq x.bytes y.bytes };

    ghost laws = { Prim.search (comparing, rules) };

    fn eq(&self, other: &Digest) -> bool
        ensures computes { result ≡ bytes_eq self.now.bytes other.now.bytes }
        ensures decides { Decides result (self.now ≡ other.now) }
    {
        self.bytes == other.bytes
    }
}

/// What a program gives the chip to be signed or closed.
#[derive(Clone, Copy, Eq)]
pub struct Data {
    pub bytes: [u8; 32],
}

impl PartialEq for Data {
    ghost eq = { λ x y. bytes_eq x.bytes y.bytes };

    ghost laws = { Prim.search (comparing, rules) };

    fn eq(&self, other: &Data) -> bool
        ensures computes { result ≡ bytes_eq self.now.bytes other.now.bytes }
        ensures decides { Decides result (self.now ≡ other.now) }
    {
        let Data { bytes } = other;
        self.bytes == *bytes
    }
}
