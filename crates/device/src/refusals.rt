//! Why a chip, a loader or a judge refuses.

ghost use Rattle.std.specs.Prelude.{◌≡◌};
ghost use Rattle.device.specs.Refusals.{number_of};

#[derive(Clone, Copy, Debug, PartialEq, Eq)]
pub enum Refusal {
    /// The register holds sixteen digests. A register by value has this limit, and no other has.
    Full,
    /// An unknown kind of command, or one that does not come this way.
    Malformed,
    /// A thing whose seal does not fit.
    BadSeal,
    /// A thing closed for another row.
    OtherRow,
    /// A thing closed under another counter.
    OtherCounter,
    /// The counter, or the number of things, is at 2^63.
    UsedUp,
    /// A start list that cannot be read, or a program that is not there.
    NoProgram,
    /// A chip that the judge does not know.
    UnknownChip,
    /// No such question is open.
    NoQuestion,
    /// A list that is not there, empty, too long, given twice, one too many, or not with the first program first; a
    /// chip given twice or one too many; an office's list too long or given twice.
    BadList,
    /// A signature that does not fit.
    BadSignature,
    /// Drawn bytes are used up.
    NoDraws,
}

/// The number by which a refusal is told; 0 where the limit is only that of a chip by value.
impl From<Refusal> for u8 {
    ghost from_gives = { λ why n. n ≡ number_of why };

    fn from(why: Refusal) -> u8 {
        match why {
            Refusal::Full => 0,
            Refusal::Malformed => 1,
            Refusal::BadSeal => 2,
            Refusal::OtherRow => 3,
            Refusal::OtherCounter => 4,
            Refusal::UsedUp => 5,
            Refusal::NoProgram => 7,
            Refusal::UnknownChip => 8,
            Refusal::NoQuestion => 9,
            Refusal::BadList => 10,
            Refusal::BadSignature => 11,
            Refusal::NoDraws => 12,
        }
    }
}
