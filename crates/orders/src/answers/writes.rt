//! Writing answers into lent slices.

ghost use Rattle.std.specs.Prelude.{◌≡◌};
ghost use Rattle.wire.specs.Layouts.{encoded};
ghost use Rattle.orders.specs.Answers.{shown_answer};
ghost use Rattle.orders.specs.Writes.{fits_answer, writes};

use crate::answers::Answer;
use crate::answers::reads::are_flags;
use crate::things::MOST_CLOSED;
use wire::fields::Field;
use wire::fields::writes::write;
use wire::kinds::AnswerKind;

impl Answer<'_> {
    /// Writes the answer at the slice's beginning and tells how many bytes it has, or writes nothing if it does not fit.
    pub fn write(self, out: &mut [u8]) -> Option<usize>
        ensures { (result, out.new) ≡ writes (fits_answer self.entry) (encoded (shown_answer self.entry)) out.old }
    {
        match self {
            Answer::Done => write(&[Field::U8(AnswerKind::Done.into())], out),
            Answer::Signed(sign) => write(
                &[
                    Field::U8(AnswerKind::Signed.into()),
                    Field::Part(&sign.bytes),
                ],
                out,
            ),
            Answer::Counter(counter) => write(
                &[Field::U8(AnswerKind::Counter.into()), Field::U64(counter)],
                out,
            ),
            Answer::Closed(thing) => thing.write_after(AnswerKind::Closed.into(), out),
            Answer::Opened(bytes) => {
                if bytes.len() > MOST_CLOSED {
                    return None;
                }
                write(
                    &[
                        Field::U8(AnswerKind::Opened.into()),
                        Field::U16(bytes.len() as u16),
                        Field::Part(bytes),
                    ],
                    out,
                )
            }
            Answer::Now(counter, sum) => write(
                &[
                    Field::U8(AnswerKind::Now.into()),
                    Field::U64(counter),
                    Field::Part(&sum.bytes),
                ],
                out,
            ),
            Answer::Refused(why) => write(
                &[Field::U8(AnswerKind::Refused.into()), Field::U8(why.into())],
                out,
            ),
            Answer::Accepted(list, flags) => {
                if !are_flags(flags) {
                    return None;
                }
                write(
                    &[
                        Field::U8(AnswerKind::Accepted.into()),
                        Field::U16(list),
                        Field::U8(flags.len() as u8),
                        Field::Part(flags),
                    ],
                    out,
                )
            }
        }
    }
}
