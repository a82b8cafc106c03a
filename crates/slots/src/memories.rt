//! Places in memory, of which power is never lost.

ghost use Rattle.std.specs.Prelude.{◌≡◌, IsOk};
ghost use Rattle.slots.specs.Memories.{places_in};
ghost use Rattle.slots.specs.Places.{with_place};

use crate::marks::Side;
use crate::places::LENGTH;
use crate::storages::{PowerLost, Storage};

#[derive(Clone, Copy, Debug, PartialEq, Eq)]
pub struct Memory {
    pub first: [u8; LENGTH],
    pub second: [u8; LENGTH],
}

impl Storage for Memory {
    ghost image = { places_in };

    fn read(&self, side: Side) -> [u8; LENGTH] {
        match side {
            Side::First => self.first,
            Side::Second => self.second,
        }
    }

    fn write(&mut self, side: Side, place: [u8; LENGTH]) -> Result<(), PowerLost>
        ensures done { IsOk result }
        ensures written { places_in self.new ≡ with_place side place (places_in self.old) }
    {
        match side {
            Side::First => self.first = place,
            Side::Second => self.second = place,
        }
        Ok(())
    }
}
