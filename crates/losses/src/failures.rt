//! Places in memory that lose power: for tests of what a cut write does.

ghost use Rattle.std.specs.Prelude.{◌≡◌, ◌≤◌, ◌-◌, ◌++◌, ◌↔◌, take, drop, is_ok, IsOk, OnErr};
ghost use Rattle.losses.specs.Failures.{places_under};
ghost use Rattle.slots.specs.Places.{Wrote, at_side, with_place};

use slots::marks::Side;
use slots::memories::Memory;
use slots::places::LENGTH;
use slots::storages::{PowerLost, Storage};

/// Power is lost after so many more bytes were written.
#[derive(Clone, Copy, Debug, PartialEq, Eq)]
pub struct Failing {
    pub memory: Memory,
    pub left: usize,
}

impl Storage for Failing {
    ghost image = { places_under };

    fn read(&self, side: Side) -> [u8; LENGTH] {
        self.memory.read(side)
    }

    fn write(&mut self, side: Side, place: [u8; LENGTH]) -> Result<(), PowerLost>
        ensures wrote { Wrote side place (places_under self.old) (places_under self.new) (is_ok result) }
        ensures done { IsOk result ↔ (LENGTH ≤ self.old.left) }
        ensures left { self.new.left ≡ self.old.left - LENGTH }
        ensures torn { OnErr result (places_under self.new ≡ with_place side (take self.old.left place ++ drop self.old.left (at_side side (places_under self.old))) (places_under self.old)) }
    {
        if let Some(left) = self.left.checked_sub(LENGTH) {
            self.left = left;
            return self.memory.write(side, place);
        }
        // The first bytes of the new, and the rest of the old.
        let mut torn = self.read(side);
        torn[..self.left].copy_from_slice(&place[..self.left]);
        self.left = 0;
        self.memory.write(side, torn)?;
        Err(PowerLost)
    }
}
