//! Writing commands into lent slices.

ghost use Rattle.std.specs.Prelude.{◌≡◌, ◌≤◌, length};
ghost use Rattle.wire.specs.Fields.{written};
ghost use Rattle.wire.specs.Layouts.{encoded};
ghost use Rattle.orders.specs.Commands.{closing, shown_command};
ghost use Rattle.orders.specs.Things.{most_closed};
ghost use Rattle.orders.specs.Writes.{fits_command, writes};

use crate::commands::Command;
use crate::things::MOST_CLOSED;
use wire::fields::Field;
use wire::fields::writes::write;
use wire::kinds::CommandKind;

impl Command<'_> {
    /// Writes the command at the slice's beginning and tells how many bytes it has, or writes nothing if it does not fit.
    pub fn write(self, out: &mut [u8]) -> Option<usize>
        ensures { (result, out.new) ≡ writes (fits_command self.entry) (encoded (shown_command self.entry)) out.old }
    {
        match self {
            Command::Put(digest) => write(
                &[
                    Field::U8(CommandKind::Put.into()),
                    Field::Part(&digest.bytes),
                ],
                out,
            ),
            Command::Sign(data) => write(
                &[
                    Field::U8(CommandKind::Sign.into()),
                    Field::Part(&data.bytes),
                ],
                out,
            ),
            Command::Count => write(&[Field::U8(CommandKind::Count.into())], out),
            Command::Close(sum, bytes) => {
                if bytes.len() > MOST_CLOSED {
                    return None;
                }
                write_close(&sum.bytes, bytes, out)
            }
            Command::Open(thing) => thing.write_after(CommandKind::Open.into(), out),
            Command::Read => write(&[Field::U8(CommandKind::Read.into())], out),
            Command::SwitchedOn => write(&[Field::U8(CommandKind::SwitchedOn.into())], out),
        }
    }
}

// The parts have one lifetime, so that they can lie in one array.
fn write_close<'a>(sum: &'a [u8], bytes: &'a [u8], out: &mut [u8]) -> Option<usize>
    requires { length bytes.now ≤ most_closed }
    ensures { (result, out.new) ≡ written (encoded (closing sum.now bytes.now)) out.old }
{
    write(
        &[
            Field::U8(CommandKind::Close.into()),
            Field::Part(sum),
            Field::U16(bytes.len() as u16),
            Field::Part(bytes),
        ],
        out,
    )
}
