//! Whether a target is a row, and whether a seal fits.

ghost use Rattle.std.specs.Prelude.{◌≡◌};
ghost use Rattle.device.specs.Things.{is_row, sealed_by_of};

use crate::chips::{Seal, Target, Thing};
use crate::registers::Register;

impl Target {
    /// Whether the target is this row.
    pub fn is_row(self, row: Register) -> bool
        ensures { result ≡ is_row self row }
    {
        Target::Row(row) == self
    }
}

impl Thing {
    /// Whether the seal is this chip's, over just this content.
    pub fn sealed_by(self, chip: u32) -> bool
        ensures { result ≡ sealed_by_of chip self }
    {
        self.seal
            == Seal {
                chip,
                content: self.content,
            }
    }
}
