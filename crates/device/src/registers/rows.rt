//! Rows: the empty one, one more digest, and whether two are the same.

ghost use Rattle.std.specs.Prelude.{◌≡◌, Decides};
ghost use Rattle.std.specs.Cmp.Rules.{comparing};
ghost use Rattle.std.proofs.Common.{rules};
ghost use Rattle.device.specs.Rows.{row, empty_register, pushed, same_row};

use crate::digests::Digest;
use crate::registers::Register;

impl Register {
    pub fn empty() -> Register
        ensures { result ≡ empty_register }
    {
        Register {
            digests: [Digest { bytes: [0; 32] }; 16],
            len: 0,
        }
    }

    /// How many digests there are.
    pub fn len(&self) -> usize
        ensures { result ≡ self.now.len }
    {
        self.len
    }

    /// All sixteen places, the oldest digest first; those past the row's end mean nothing.
    pub fn digests(self) -> [Digest; 16]
        ensures { result ≡ self.digests }
    {
        self.digests
    }

    /// The digests, the oldest first.
    pub fn as_slice(&self) -> &[Digest]
        ensures { result.now ≡ row self.now }
    {
        &self.digests[0..self.len]
    }

    /// One digest more, or nothing where the register is full.
    pub fn with(self, digest: Digest) -> Option<Register>
        ensures { result ≡ pushed self digest }
    {
        if self.len >= 16 {
            return None;
        }
        let mut digests = self.digests;
        digests[self.len] = digest;
        Some(Register {
            digests,
            len: self.len + 1,
        })
    }
}

/// Registers are the same where their rows are: the places past a row's end mean nothing, so no derive serves.
impl PartialEq for Register {
    ghost eq = { same_row };

    ghost laws = { Prim.search (comparing, rules) };

    fn eq(&self, other: &Register) -> bool
        ensures computes { result ≡ same_row self.now other.now }
        ensures decides { Decides result (row self.now ≡ row other.now) }
    {
        self.as_slice() == other.as_slice()
    }
}
