//! Reading things.

ghost use Rattle.std.specs.Prelude.{◌≡◌, ◌+◌, ◌-◌, ◌≤◌, length, take, IfOk, MatchResult};
ghost use Rattle.wire.specs.declared.refusals.Refusal.TheVariants.{Malformed};
ghost use Rattle.wire.specs.Layouts.{read_of};
ghost use Rattle.orders.specs.Things.{Counts, CountsNone, thing_forms, shown_thing};
ghost use Rattle.wire.specs.Words.{always, outcome, Reads};

use crate::things::{MOST_CLOSED, SEAL_SIZE, Thing};
use wire::digests::Sum;
use wire::kinds::THING;
use wire::numbers::{bytes_at, number_at};
use wire::refusals::Refusal;

impl<'a> Thing<'a> {
    /// Any fault is told as malformed.
    pub fn read(word: &'a [u8]) -> Result<Thing<'a>, Refusal>
        ensures reads { Reads shown_thing Malformed (always thing_forms) word.now result }
        ensures body { IfOk result (λ t. t.body.now ≡ take (length word.now - 16) word.now) }
    {
        if word.first() != Some(&THING) {
            return Err(Refusal::Malformed);
        }
        let turned = counted_at(word, 49, SEAL_SIZE)?;
        let (body, seal) = word.split_at(word.len() - SEAL_SIZE);
        Ok(Thing {
            number: number_at(word, 1),
            sum: Sum {
                bytes: bytes_at(word, 9),
            },
            counter: number_at(word, 41),
            turned,
            seal,
            body,
        })
    }
}

/// The bytes that are counted at this place, if they are few enough to be closed and just so many bytes follow them.
pub(crate) fn counted_at(word: &[u8], at: usize, after: usize) -> Result<&[u8], Refusal>
    requires { at + after ≤ 256 }
    ensures { MatchResult result (λ part. Counts at after word.now part.now) (λ e. (e ≡ Malformed) × CountsNone at after word.now) }
{
    let count: u16 = number_at(word, at);
    let count = usize::from(count);
    let start = at + 2;
    if count > MOST_CLOSED || word.len() != start + count + after {
        return Err(Refusal::Malformed);
    }
    Ok(&word[start..start + count])
}
