//! Why a line is not played.

ghost use Rattle.std.specs.Prelude.{◌≡◌, Some};
ghost use Rattle.script.specs.Faults.{fault_text};
ghost use Rattle.script.specs.declared.faults.Fault.TheVariants.{NoMemory};

use std::alloc::{AllocError, AllocFailed};
use std::error::Error;
use std::fmt;

#[derive(Clone, Copy, Debug, PartialEq, Eq)]
pub enum Fault {
    /// The first word is no verb.
    Unknown,
    /// A word is missing, too many or another.
    Shape,
    /// A name of more than sixteen bytes.
    TooLong,
    NoNumber,
    /// Programs.
    TooMany,
    NoFleet,
    /// Nothing was kept under this name.
    NotKept,
    NoMemory,
}

impl fmt::Display for Fault {
    ghost output = { λ fault. Some (fault_text fault) };

    fn fmt<W: fmt::Write>(&self, f: &mut fmt::Formatter<W>) -> fmt::Result {
        f.write_str(match self {
            Fault::Unknown => "unknown word",
            Fault::Shape => "a word is missing or too many",
            Fault::TooLong => "a name of more than 16 bytes",
            Fault::NoNumber => "not a number, or too large",
            Fault::TooMany => "too many programs",
            Fault::NoFleet => "there is no fleet yet",
            Fault::NotKept => "nothing is kept under this name",
            Fault::NoMemory => "no memory",
        })
    }
}

impl Error for Fault {}

impl From<AllocError> for Fault {
    ghost from_gives = { λ _ fault. fault ≡ NoMemory };

    fn from(_error: AllocError) -> Fault {
        Fault::NoMemory
    }
}

impl<T: Drop> From<AllocFailed<T>> for Fault {
    ghost from_gives = { λ _ fault. fault ≡ NoMemory };

    fn from(_error: AllocFailed<T>) -> Fault {
        Fault::NoMemory
    }
}

#[cfg(test)]
mod tests {
    use super::*;

    #[test]
    fn a_fault_is_told(rt: HostRuntime) -> Result<(), AllocError> {
        let told = format!(in rt.alloc(); "line 4: {}", Fault::NoNumber)?;
        assert_eq!(rt; told.as_str(), "line 4: not a number, or too large");
        Ok(())
    }
}
