//! The kinds of words, told by a word's first byte.

ghost use Rattle.std.specs.Prelude.{◌≡◌};
ghost use Rattle.wire.specs.declared.refusals.Refusal.TheVariants.{Malformed};
ghost use Rattle.wire.specs.Kinds.{Told, number_of_answer, number_of_command};

use crate::refusals::Refusal;

/// The first byte of a thing, which is the only word of its sort.
pub const THING: u8 = 2;

/// The kinds of commands to a chip, by their numbers.
#[derive(Clone, Copy, Debug, PartialEq, Eq)]
pub enum CommandKind {
    Put = 1,
    Sign = 2,
    Count = 3,
    Close = 4,
    Open = 5,
    Read = 6,
    SwitchedOn = 7,
}

/// The kinds of answers of a chip and of the judge, by their numbers.
#[derive(Clone, Copy, Debug, PartialEq, Eq)]
pub enum AnswerKind {
    Done = 16,
    Signed = 17,
    Counter = 18,
    Closed = 19,
    Opened = 20,
    Now = 21,
    Refused = 32,
    Accepted = 33,
}

/// A number by which no kind is told.
#[derive(Clone, Copy, Debug, PartialEq, Eq)]
pub struct UnknownKind(pub u8);

/// A word of an unknown kind is malformed.
impl From<UnknownKind> for Refusal {
    ghost from_gives = { λ _ refusal. refusal ≡ Malformed };

    fn from(_number: UnknownKind) -> Refusal {
        Refusal::Malformed
    }
}

impl From<CommandKind> for u8 {
    ghost from_gives = { λ kind number. number ≡ number_of_command kind };

    fn from(kind: CommandKind) -> u8 {
        kind as u8
    }
}

impl TryFrom<u8> for CommandKind {
    type Error = UnknownKind;

    ghost try_from_gives = { Told number_of_command };

    fn try_from(number: u8) -> Result<CommandKind, UnknownKind> {
        match number {
            1 => Ok(CommandKind::Put),
            2 => Ok(CommandKind::Sign),
            3 => Ok(CommandKind::Count),
            4 => Ok(CommandKind::Close),
            5 => Ok(CommandKind::Open),
            6 => Ok(CommandKind::Read),
            7 => Ok(CommandKind::SwitchedOn),
            _ => Err(UnknownKind(number)),
        }
    }
}

impl From<AnswerKind> for u8 {
    ghost from_gives = { λ kind number. number ≡ number_of_answer kind };

    fn from(kind: AnswerKind) -> u8 {
        kind as u8
    }
}

impl TryFrom<u8> for AnswerKind {
    type Error = UnknownKind;

    ghost try_from_gives = { Told number_of_answer };

    fn try_from(number: u8) -> Result<AnswerKind, UnknownKind> {
        match number {
            16 => Ok(AnswerKind::Done),
            17 => Ok(AnswerKind::Signed),
            18 => Ok(AnswerKind::Counter),
            19 => Ok(AnswerKind::Closed),
            20 => Ok(AnswerKind::Opened),
            21 => Ok(AnswerKind::Now),
            32 => Ok(AnswerKind::Refused),
            33 => Ok(AnswerKind::Accepted),
            _ => Err(UnknownKind(number)),
        }
    }
}
