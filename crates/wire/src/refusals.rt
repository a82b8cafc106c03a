//! Why a chip, a loader or a judge refuses.

ghost use Rattle.std.specs.Prelude.{◌≡◌, IfErr};
ghost use Rattle.std.specs.Result.{result_ok};
ghost use Rattle.wire.specs.declared.refusals.Refusal.TheVariants.{Malformed};
ghost use Rattle.wire.specs.Refusals.{number_of, refusal_of};

/// Its number is the one by which it is told.
#[derive(Clone, Copy, Debug, PartialEq, Eq)]
pub enum Refusal {
    /// An unknown kind of word, a cut one, or bytes after its end.
    Malformed = 1,
    /// A thing whose last bytes do not fit.
    BadSeal = 2,
    /// A thing for another sum.
    OtherSum = 3,
    /// A thing of another counter.
    OtherCounter = 4,
    /// The counter, or the number of things, is at 2^63.
    UsedUp = 5,
    /// Neither of the chip's two places fits any more.
    NoPlace = 6,
    /// A start list that cannot be read, or a program that is not there or too long.
    NoProgram = 7,
    /// A chip that the judge does not know.
    UnknownChip = 8,
    /// No such question is open.
    NoQuestion = 9,
    /// A list that is not there, cut, empty, too long, given twice, one too many, or not with the first program first;
    /// a chip given twice or one too many; an office's list cut, too long or given twice.
    BadList = 10,
    /// A signature that does not fit.
    BadSign = 11,
    /// Drawn bytes are used up.
    NoDraws = 12,
}

/// A number by which no refusal is told.
#[derive(Clone, Copy, Debug, PartialEq, Eq)]
pub struct UnknownRefusal(pub u8);

/// A word that tells no refusal where it should is malformed.
impl From<UnknownRefusal> for Refusal {
    ghost from_gives = { λ _ refusal. refusal ≡ Malformed };

    fn from(_number: UnknownRefusal) -> Refusal {
        Refusal::Malformed
    }
}

impl From<Refusal> for u8 {
    ghost from_gives = { λ refusal number. number ≡ number_of refusal };

    fn from(refusal: Refusal) -> u8 {
        refusal as u8
    }
}

impl TryFrom<u8> for Refusal {
    type Error = UnknownRefusal;

    ghost try_from_gives = { λ number r. (result_ok r ≡ refusal_of number) × IfErr r (λ e. e.0 ≡ number) };

    fn try_from(number: u8) -> Result<Refusal, UnknownRefusal> {
        match number {
            1 => Ok(Refusal::Malformed),
            2 => Ok(Refusal::BadSeal),
            3 => Ok(Refusal::OtherSum),
            4 => Ok(Refusal::OtherCounter),
            5 => Ok(Refusal::UsedUp),
            6 => Ok(Refusal::NoPlace),
            7 => Ok(Refusal::NoProgram),
            8 => Ok(Refusal::UnknownChip),
            9 => Ok(Refusal::NoQuestion),
            10 => Ok(Refusal::BadList),
            11 => Ok(Refusal::BadSign),
            12 => Ok(Refusal::NoDraws),
            _ => Err(UnknownRefusal(number)),
        }
    }
}
