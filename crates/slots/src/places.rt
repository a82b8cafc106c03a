//! A place: counter and number, high byte first, and the SHA-256 of these sixteen bytes.

ghost use Rattle.std.specs.Prelude.{◌≡◌, ◌+◌};
ghost use Rattle.slots.specs.Places.{place_of, held, age, later_of};

use crate::marks::{Marks, Side};
use hash::comparisons::equal;
use hash::digests::sha256;

/// How many bytes a place has.
pub const LENGTH: usize = 48;

/// Where its sum stands, after counter and number.
const SUM_AT: usize = 16;

/// What is written to a place for this counter and this number.
// This and `held` are no `From` and `TryFrom`: that a place does not fit is no error, but what a cut write may leave.
pub fn place(marks: Marks) -> [u8; LENGTH]
    ensures { result ≡ place_of marks }
{
    let mut place = [0; LENGTH];
    place[..8].copy_from_slice(&marks.counter.to_be_bytes());
    place[8..SUM_AT].copy_from_slice(&marks.number.to_be_bytes());
    let sum = sha256(&place[..SUM_AT]);
    place[SUM_AT..].copy_from_slice(&sum);
    place
}

/// What a place holds, if its sum fits.
pub fn held(place: &[u8; LENGTH]) -> Option<Marks>
    ensures { result ≡ held place.now }
{
    let (text, sum) = place.split_at(SUM_AT);
    if !equal(sum, &sha256(text)) {
        return None;
    }
    let (numbers, _) = text.as_chunks::<8>();
    Some(Marks {
        counter: u64::from_be_bytes(numbers[0]),
        number: u64::from_be_bytes(numbers[1]),
    })
}

// They may add up to 2^64. It is no order of marks, since marks of one age may differ.
fn age(marks: Marks) -> u128
    ensures { result ≡ age marks }
{
    u128::from(marks.counter) + u128::from(marks.number)
}

/// Of two places that fit, the one whose counter and number add up to more, and the first where they are equal.
pub fn latest(first: &[u8; LENGTH], second: &[u8; LENGTH]) -> Option<(Side, Marks)>
    ensures { result ≡ later_of (held first.now) (held second.now) }
{
    match (held(first), held(second)) {
        (None, None) => None,
        (Some(old), Some(new)) if age(old) < age(new) => Some((Side::Second, new)),
        (Some(marks), _) => Some((Side::First, marks)),
        (None, Some(marks)) => Some((Side::Second, marks)),
    }
}
