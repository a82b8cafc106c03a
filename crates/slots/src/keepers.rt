//! Counter and number of a chip, kept in two places: nothing is answered before it is written.

ghost use Rattle.std.specs.Prelude.{◌≡◌, ◌^◌, suc, nat_lt, if◌then◌else◌, Some, None};
ghost use Rattle.slots.specs.Histories.{after, On, may, next};
ghost use Rattle.slots.specs.Keepers.{chip_of, lost, outcome, stepped};

use crate::marks::{Act, Marks, Side, StepError};
use crate::places::{latest, place};
use crate::storages::Storage;

/// Counter and number stop here.
const LIMIT: u64 = 1 << 63;

/// The places, and while the chip is on and one of them fits, which is the latest and what it holds.
// Clauses see it by `chip_of` and not by a model: as a chip alone it would forget the storage, which `into_storage`
// gives back.
#[derive(Drop)]
pub struct Keeper<S> {
    storage: S,
    live: Option<(Side, Marks)>,
}

impl<S: Storage> Keeper<S> {
    /// A chip that is off.
    pub fn new(storage: S) -> Keeper<S>
        ensures { chip_of S.Storage.image result ≡ record { places = S.Storage.image storage; live = None } }
    {
        Keeper {
            storage,
            live: None,
        }
    }

    /// Switched off: the places are what is left.
    pub fn into_storage(self) -> S
        ensures { result ≡ self.storage }
    {
        self.storage
    }

    /// Switched on, or off and on: the latest place that fits is taken.
    pub fn switch_on(&mut self)
        ensures { chip_of S.Storage.image self.new ≡ after (chip_of S.Storage.image self.old) On }
    {
        self.live = latest(
            &self.storage.read(Side::First),
            &self.storage.read(Side::Second),
        );
    }

    /// Counts, or takes the next number, and answers the marks before it: the new are written first, to the place that
    /// does not hold the latest.
    pub fn step(&mut self, act: Act) -> Result<Marks, StepError>
        ensures answers { result ≡ outcome (lost result) act (chip_of S.Storage.image self.old).live }
        ensures exact { chip_of S.Storage.image self.new ≡ stepped result act (chip_of S.Storage.image self.old) (S.Storage.image self.new.storage) }
    {
        let (side, marks) = self.live.ok_or(StepError::NoPlace)?;
        let next = next(act, marks).ok_or(StepError::UsedUp)?;
        let side = side.other();
        // Where power is lost, the chip is off.
        self.live = None;
        self.storage.write(side, place(next))?;
        self.live = Some((side, next));
        Ok(marks)
    }
}

// The marks after an act; none where the one that it raises is at the limit.
fn next(act: Act, marks: Marks) -> Option<Marks>
    ensures { result ≡ if may act marks then Some (next act marks) else None }
{
    match act {
        Act::Counting => Some(Marks {
            counter: raised(marks.counter)?,
            ..marks
        }),
        Act::Closing => Some(Marks {
            number: raised(marks.number)?,
            ..marks
        }),
    }
}

fn raised(mark: u64) -> Option<u64>
    ensures { result ≡ if nat_lt mark (2 ^ 63) then Some (suc mark) else None }
{
    (mark < LIMIT).then(|| mark + 1)
}
