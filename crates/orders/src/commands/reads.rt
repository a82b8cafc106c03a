//! Reading commands.

ghost use Rattle.std.specs.Prelude.{◌≡◌, IfOk};
ghost use Rattle.wire.specs.declared.refusals.Refusal.TheVariants.{Malformed};
ghost use Rattle.orders.specs.Commands.{Bodies, command_forms, shown_command};
ghost use Rattle.wire.specs.Layouts.{read_of};
ghost use Rattle.wire.specs.Words.{always, outcome, Reads};

use crate::commands::Command;
use crate::things::Thing;
use crate::things::reads::counted_at;
use wire::digests::{Data, Digest, SIZE, Sum};
use wire::kinds::CommandKind;
use wire::numbers::bytes_at;
use wire::refusals::Refusal;

impl<'a> Command<'a> {
    /// Any fault is told as malformed.
    pub fn read(word: &'a [u8]) -> Result<Command<'a>, Refusal>
        ensures reads { Reads shown_command Malformed (always command_forms) word.now result }
        ensures body { IfOk result (λ v. Bodies word.now v) }
    {
        let first = *word.first().ok_or(Refusal::Malformed)?;
        match CommandKind::try_from(first)? {
            CommandKind::Put if word.len() == 1 + SIZE => Ok(Command::Put(Digest {
                bytes: bytes_at(word, 1),
            })),
            CommandKind::Sign if word.len() == 1 + SIZE => Ok(Command::Sign(Data {
                bytes: bytes_at(word, 1),
            })),
            CommandKind::Count if word.len() == 1 => Ok(Command::Count),
            CommandKind::Close => {
                let bytes = counted_at(word, 1 + SIZE, 0)?;
                Ok(Command::Close(
                    Sum {
                        bytes: bytes_at(word, 1),
                    },
                    bytes,
                ))
            }
            CommandKind::Open => Ok(Command::Open(Thing::read(&word[1..])?)),
            CommandKind::Read if word.len() == 1 => Ok(Command::Read),
            CommandKind::SwitchedOn if word.len() == 1 => Ok(Command::SwitchedOn),
            _ => Err(Refusal::Malformed),
        }
    }
}
