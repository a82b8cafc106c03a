//! What came of a line, in words.

use crate::words::Plain;
use device::chips::Answer;
use device::refusals::Refusal;
use device::registers::Register;
use fleet::fleets;
use fleet::fleets::Report;
use std::fmt;
use verifier::judges::{Acceptance, Said};

#[derive(Clone, Copy)]
pub enum Outcome {
    /// What the fleet reported.
    Reported(Result<Report, fleets::Fault>),
    /// Whether outsiders have it.
    Has(bool),
}

impl fmt::Display for Outcome {
    fn fmt<W: fmt::Write>(&self, f: &mut fmt::Formatter<W>) -> fmt::Result {
        match self {
            Outcome::Reported(Ok(report)) => tell(f, report),
            Outcome::Reported(Err(why)) => tell_fault(f, *why),
            Outcome::Has(true) => write!(f, "outsiders have it"),
            Outcome::Has(false) => write!(f, "outsiders do not have it"),
        }
    }
}

fn tell<W: fmt::Write>(f: &mut fmt::Formatter<W>, report: &Report) -> fmt::Result {
    match report {
        Report::Done => write!(f, "done"),
        Report::Answered(answer) => tell_answer(f, answer),
        Report::Told(said) => tell_said(f, said),
        Report::Accepted(acceptance, ran) => tell_accepted(f, acceptance, ran.as_ref()),
    }
}

fn tell_fault<W: fmt::Write>(f: &mut fmt::Formatter<W>, why: fleets::Fault) -> fmt::Result {
    match why {
        fleets::Fault::Refused(why) => tell_refusal(f, why),
        fleets::Fault::Unwilling => write!(f, "unwilling"),
        fleets::Fault::Nobody => write!(f, "nobody"),
        fleets::Fault::NoMemory => write!(f, "no memory"),
    }
}

fn tell_refusal<W: fmt::Write>(f: &mut fmt::Formatter<W>, why: Refusal) -> fmt::Result {
    let number = u8::from(why);
    write!(f, "refused {number}")
}

fn tell_answer<W: fmt::Write>(f: &mut fmt::Formatter<W>, answer: &Answer) -> fmt::Result {
    match answer {
        Answer::Done => write!(f, "done"),
        Answer::Signed(_) => write!(f, "signed"),
        Answer::Counter(counter) => write!(f, "counter {counter}"),
        Answer::Closed(thing) => {
            let number = thing.content.number;
            write!(f, "thing {number}")
        }
        Answer::Opened(data) => {
            let plain = Plain(data.bytes);
            write!(f, "opened {plain}")
        }
        Answer::Now(counter, row) => {
            write!(f, "counter {counter} row")?;
            tell_row(f, row)
        }
    }
}

fn tell_said<W: fmt::Write>(f: &mut fmt::Formatter<W>, said: &Said) -> fmt::Result {
    match said {
        Said::Done => write!(f, "done"),
        Said::Asks(chip, _) => write!(f, "asks {chip}"),
        Said::Accepted(acceptance) => tell_accepted(f, acceptance, None),
    }
}

fn tell_accepted<W: fmt::Write>(
    f: &mut fmt::Formatter<W>,
    acceptance: &Acceptance,
    ran: Option<&Register>,
) -> fmt::Result {
    let list = acceptance.list;
    write!(f, "accepted list {list}: row")?;
    tell_row(f, &acceptance.row)?;
    write!(f, "; unknown to the office:")?;
    tell_unknown(f, acceptance)?;
    write!(f, "; ran")?;
    match ran {
        Some(ran) => tell_row(f, ran),
        None => write!(f, " unknown"),
    }
}

/// A space before each program.
fn tell_row<W: fmt::Write>(f: &mut fmt::Formatter<W>, row: &Register) -> fmt::Result {
    for digest in row.as_slice() {
        let plain = Plain(digest.bytes);
        write!(f, " {plain}")?;
    }
    Ok(())
}

/// Those of the row that the flags do not know.
fn tell_unknown<W: fmt::Write>(f: &mut fmt::Formatter<W>, acceptance: &Acceptance) -> fmt::Result {
    let mut unknown = 0u32;
    for (digest, known) in acceptance
        .row
        .as_slice()
        .iter()
        .zip(acceptance.flags.known.iter())
    {
        if !*known {
            unknown = unknown.saturating_add(1);
            let plain = Plain(digest.bytes);
            write!(f, " {plain}")?;
        }
    }
    if unknown == 0 {
        write!(f, " none")
    } else {
        Ok(())
    }
}
