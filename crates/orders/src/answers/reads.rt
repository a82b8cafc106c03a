//! Reading answers.

ghost use Rattle.std.specs.Prelude.{◌≡◌, length};
ghost use Rattle.wire.specs.declared.refusals.Refusal.TheVariants.{Malformed};
ghost use Rattle.wire.specs.Kinds as kind;
ghost use Rattle.wire.specs.Layouts.{read_form, read_of};
ghost use Rattle.wire.specs.Words.{always, outcome, Reads};
ghost use Rattle.orders.specs.Answers.{accepted_parts, answer_form, answer_forms, flagged, shown_answer};

use crate::answers::{Answer, MOST_LISTED};
use crate::things::Thing;
use crate::things::reads::counted_at;
use wire::digests::{SIZE, Sign, Sum};
use wire::kinds::AnswerKind;
use wire::numbers::{bytes_at, number_at};
use wire::refusals::Refusal;

impl<'a> Answer<'a> {
    /// Any fault is told as malformed.
    pub fn read(word: &'a [u8]) -> Result<Answer<'a>, Refusal>
        ensures { Reads shown_answer Malformed (always answer_forms) word.now result }
    {
        let first = *word.first().ok_or(Refusal::Malformed)?;
        match AnswerKind::try_from(first)? {
            AnswerKind::Done if word.len() == 1 => Ok(Answer::Done),
            AnswerKind::Signed if word.len() == 1 + SIZE => Ok(Answer::Signed(Sign {
                bytes: bytes_at(word, 1),
            })),
            AnswerKind::Counter if word.len() == 9 => Ok(Answer::Counter(number_at(word, 1))),
            AnswerKind::Closed => Ok(Answer::Closed(Thing::read(&word[1..])?)),
            AnswerKind::Opened => Ok(Answer::Opened(counted_at(word, 1, 0)?)),
            AnswerKind::Now if word.len() == 9 + SIZE => Ok(Answer::Now(
                number_at(word, 1),
                Sum {
                    bytes: bytes_at(word, 9),
                },
            )),
            AnswerKind::Refused if word.len() == 2 => {
                Ok(Answer::Refused(Refusal::try_from(word[1])?))
            }
            AnswerKind::Accepted => accepted(word),
            _ => Err(Refusal::Malformed),
        }
    }
}

fn accepted(word: &[u8]) -> Result<Answer<'_>, Refusal>
    ensures { outcome shown_answer result ≡ read_form (answer_form kind.accepted accepted_parts) word.now }
{
    if word.len() < 4 {
        return Err(Refusal::Malformed);
    }
    let flags = &word[4..];
    if usize::from(word[3]) != flags.len() || !are_flags(flags) {
        return Err(Refusal::Malformed);
    }
    Ok(Answer::Accepted(number_at(word, 1), flags))
}

/// Whether these are flags of a judge's list.
pub(crate) fn are_flags(part: &[u8]) -> bool
    ensures { result ≡ flagged (length part.now) part.now }
{
    !part.is_empty() && part.len() <= MOST_LISTED && part.iter().all(|flag| *flag <= 1)
}
