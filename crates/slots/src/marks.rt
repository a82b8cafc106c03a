//! What a place holds, and what changes it.

ghost use Rattle.slots.specs.declared.marks.StepError.TheVariants.{Lost};
ghost use Rattle.std.specs.Prelude.{◌≡◌};

use crate::storages::PowerLost;

/// The counter, and the number of the next thing that is closed.
#[derive(Clone, Copy, Debug, PartialEq, Eq)]
pub struct Marks {
    pub counter: u64,
    pub number: u64,
}

/// One of the two places.
#[derive(Clone, Copy, Debug, PartialEq, Eq)]
pub enum Side {
    First,
    Second,
}

impl Side {
    ghost use Rattle.slots.specs.Places.{other};

    /// The side that this is not.
    pub fn other(self) -> Side
        ensures { result ≡ other self }
    {
        match self {
            Side::First => Side::Second,
            Side::Second => Side::First,
        }
    }
}

/// What changes a chip's marks: it counts, or it closes a thing.
// A value and no closure: each event of a chip's history names its act, and the theorem on histories speaks of it.
#[derive(Clone, Copy, Debug, PartialEq, Eq)]
pub enum Act {
    Counting,
    Closing,
}

/// Why an act was not answered.
#[derive(Clone, Copy, Debug, PartialEq, Eq)]
pub enum StepError {
    /// Counter or number is at 2^63.
    UsedUp,
    /// Neither place fits, or the chip is off.
    NoPlace,
    /// Power was lost, and nothing is answered.
    Lost,
}

impl From<PowerLost> for StepError {
    ghost from_gives = { λ _ e. e ≡ Lost };

    fn from(_lost: PowerLost) -> StepError {
        StepError::Lost
    }
}
