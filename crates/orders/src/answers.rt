//! Answers of a chip and of the judge.

pub mod reads;
pub mod writes;

use crate::things::Thing;
use wire::digests::{Sign, Sum};
use wire::refusals::Refusal;

/// The most digests that a judge's list has.
pub const MOST_LISTED: usize = 16;

#[derive(Clone, Copy)]
pub enum Answer<'a> {
    Done,
    Signed(Sign),
    Counter(u64),
    /// The thing that was closed.
    Closed(Thing<'a>),
    /// What was in a thing.
    Opened(&'a [u8]),
    /// The counter and the sum of now.
    Now(u64, Sum),
    /// That it was refused: a word like the others, which was read. What cannot be read is an `Err`.
    Refused(Refusal),
    /// The number of the judge's list, and for each of its digests 1 if it is on the office's list, else 0. These are lent
    /// from the word, so they are bytes as they stand there and no `bool`s.
    Accepted(u16, &'a [u8]),
}
