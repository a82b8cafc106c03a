//! Where the two places stand.

ghost use Rattle.slots.specs.Places.{Places, Wrote, at_side};
ghost use Rattle.std.specs.Prelude.{◌≡◌, is_ok};

use crate::marks::Side;
use crate::places::LENGTH;

/// Power went while a place was written.
#[derive(Clone, Copy, Debug, PartialEq, Eq)]
pub struct PowerLost;

/// Two places that survive the switch.
pub trait Storage {
    ghost image: { Self → Places };

    /// What stands in a place.
    fn read(&self, side: Side) -> [u8; LENGTH]
        ensures { result ≡ at_side side (image self.now) };

    /// Writes one place over. Where power is lost, anything may stand there then. The other place stays.
    fn write(&mut self, side: Side, place: [u8; LENGTH]) -> Result<(), PowerLost>
        ensures { Wrote side place (image self.old) (image self.new) (is_ok result) };
}
