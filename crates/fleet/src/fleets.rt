//! The fleet, what can happen to it, and what it reports.

mod acts;
mod judging;
pub mod makes;
pub mod plays;
pub mod searches;

ghost use Rattle.std.specs.Prelude.{◌≡◌};
ghost use Rattle.fleet.specs.Faults.{fault_of};
ghost use Rattle.fleet.specs.declared.fleets.Fault.TheVariants.{Refused, NoMemory};

use boot::disks::{Disk, File, Name};
use boot::machines::Machine;
use device::chips::{Answer, Command, Signature, Target};
use device::digests::{Data, Digest};
use device::refusals::Refusal;
use device::registers::Register;
use std::alloc::{AllocError, AllocFailed};
use std::marker::Model;
use verifier::judges;
use verifier::judges::{Acceptance, Judge, Said, Word};

/// Machines and judges, and what is around them.
#[derive(Drop)]
pub struct Fleet {
    /// By their numbers: chip i is that of machine i.
    machines: Vec<Machine>,
    judges: Vec<Judge>,
    outside: Outside,
}

/// What is true of the machines and judges that none of them knows.
#[derive(Drop)]
struct Outside {
    /// The first program, burnt into every machine.
    first: Digest,
    /// The bad programs; all others are good.
    bad: Vec<Digest>,
    /// What outsiders wrote; any machine is started from it.
    disk: Disk,
    /// What outsiders have heard of what was drawn: questions, and what bad programs told them. The latest first.
    heard: Vec<Data>,
    /// Every signature that was given out, with what had been loaded then. The latest first.
    shown: Vec<Shown>,
}

impl Model for Fleet {
    ghost use Rattle.std.specs.Prelude.{vec_items};
    ghost use Rattle.fleet.specs.Sights.{Sight};

    ghost Value = { Sight };

    ghost view = { λ f. record { first = f.outside.first; bad = vec_items f.outside.bad; machines = vec_items f.machines; seats = vec_items f.judges; disk = f.outside.disk; heard = vec_items f.outside.heard; shown = vec_items f.outside.shown } };
}

#[derive(Clone, Copy)]
pub struct Shown {
    pub signature: Signature,
    pub ran: Register,
}

/// What can happen at a machine.
#[derive(Clone, Copy)]
pub enum Act {
    /// It is switched off and on, and nothing is started.
    Switch,
    /// It is switched on and started from the disk, with the start list of this name.
    Start(Name),
    /// What runs asks for a further program.
    Load(Name),
    /// What runs gives the chip a command; what it closes so, outsiders have.
    Give(Command),
    /// What runs draws something, and closes it in secret.
    Keep(Target, Data),
    /// A bad program loads another and does not put it in.
    Run(Digest),
    /// Power is lost while the chip counts; and whether the counter was written by then.
    CutCount(bool),
    /// Power is lost while the chip closes: the number is used up.
    CutClose,
}

#[derive(Clone, Copy)]
pub enum Event {
    At(usize, Act),
    /// A word to a judge by the office's line, with what was drawn in case it asks.
    Office(usize, Word, Option<Data>),
    /// A word to a judge by the net.
    Net(usize, Word),
    Fall(usize),
    /// Outsiders write a file, and what they put in its place once it was read.
    Write(Name, File, File),
    /// Outsiders empty the disk.
    Wipe,
}

#[derive(Clone, Copy)]
pub enum Report {
    Done,
    /// What the chip answered.
    Answered(Answer),
    /// What the judge said.
    Told(Said),
    /// The judge accepted; and what had really been loaded when the chip signed.
    Accepted(Acceptance, Option<Register>),
}

/// Why an event did not do what it is for. A start that is refused still switched the machine on, and keeps what it loaded.
#[derive(Clone, Copy, Debug, PartialEq, Eq)]
pub enum Fault {
    /// The loader, the chip or the judge refused.
    Refused(Refusal),
    /// A good program does not do that.
    Unwilling,
    /// There is no such machine or judge.
    Nobody,
    NoMemory,
}

impl From<Refusal> for Fault {
    ghost from_gives = { λ refusal fault. fault ≡ Refused refusal };

    fn from(refusal: Refusal) -> Fault {
        Fault::Refused(refusal)
    }
}

impl From<judges::Fault> for Fault {
    ghost from_gives = { λ fault own. own ≡ fault_of fault };

    fn from(fault: judges::Fault) -> Fault {
        match fault {
            judges::Fault::Refused(why) => Fault::Refused(why),
            judges::Fault::NoMemory => Fault::NoMemory,
        }
    }
}

impl From<AllocError> for Fault {
    ghost from_gives = { λ _ fault. fault ≡ NoMemory };

    fn from(_error: AllocError) -> Fault {
        Fault::NoMemory
    }
}

impl<T: Drop> From<AllocFailed<T>> for Fault {
    ghost from_gives = { λ _ fault. fault ≡ NoMemory };

    fn from(failed: AllocFailed<T>) -> Fault {
        Fault::from(AllocError::from(failed))
    }
}
