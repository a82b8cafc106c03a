//! Looks through what a judge keeps.

ghost use Rattle.std.specs.Prelude.{◌≡◌, ◌<◌, length, IfSome, nat_eq};
ghost use Rattle.verifier.specs.Searches.{some, seek, place, is_digest, has_number, asks};

use crate::judges::{List, Question};
use device::digests::{Data, Digest};

pub fn has_chip(chips: &[u32], chip: u32) -> bool
    ensures { result ≡ some (nat_eq chip) chips.now }
{
    chips.contains(&chip)
}

pub fn has_digest(digests: &[Digest], digest: Digest) -> bool
    ensures { result ≡ some (is_digest digest) digests.now }
{
    digests.contains(&digest)
}

/// The list of this number.
pub fn find_list(lists: &[List], number: u16) -> Option<List>
    ensures { result ≡ seek (has_number number) lists.now }
{
    lists.iter().find(|list| list.number == number).copied()
}

/// Where the newest question with this chip and this data stands.
pub fn find_question(questions: &[Question], chip: u32, data: Data) -> Option<usize>
    ensures exact { result ≡ place (asks chip «data») 0 questions.now }
    ensures within { IfSome result (λ i. i < length questions.now) }
{
    questions
        .iter()
        .position(|question| question.chip == chip && question.data == data)
}
