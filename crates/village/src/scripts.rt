//! The lines of a script, and what each asks for.
// The crates `script` and `scenes` read the same lines, but tell another fault of some bad ones, and take a few that are bad
// here: were this one with them, what is printed would change, or what their definitions say.

mod chips;
mod disks;
mod judges;

use crate::words::Label;
use device::digests::{Data, Digest};
use device::registers::Register;
use fleet::fleets::Event;
use std::alloc::{AllocError, AllocFailed, Global};
use std::fmt;
use std::str::FromStr;

/// What a line asks for.
#[derive(Clone, Copy)]
pub enum Step {
    /// A new fleet of so many machines and judges; the bad programs come beside it.
    Fleet(u32, u32),
    /// Digests may come beside it.
    Play(Event),
    /// The signature, or the thing, that comes of it is kept under this name.
    Keep(Event, Label),
    /// At this machine, the thing of this name.
    Open(usize, Label),
    /// To this judge by the net: chip, question and list, and the signature of this name.
    Answer(usize, u32, Data, u16, Label),
    /// Whether outsiders have it.
    Has(Data),
}

/// Why a line is not played.
#[derive(Clone, Copy)]
pub enum Fault {
    Unknown,
    Shape,
    TooLong,
    NoNumber,
    TooMany,
    NoFleet,
    NotKept,
    NoMemory,
}

impl fmt::Display for Fault {
    fn fmt<W: fmt::Write>(&self, f: &mut fmt::Formatter<W>) -> fmt::Result {
        let why = match self {
            Fault::Unknown => "unknown word",
            Fault::Shape => "a word is missing or too many",
            Fault::TooLong => "a name of more than 16 bytes",
            Fault::NoNumber => "not a number, or too large",
            Fault::TooMany => "too many programs",
            Fault::NoFleet => "there is no fleet yet",
            Fault::NotKept => "nothing is kept under this name",
            Fault::NoMemory => "no memory",
        };
        write!(f, "{why}")
    }
}

impl From<AllocError> for Fault {
    fn from(_error: AllocError) -> Fault {
        Fault::NoMemory
    }
}

impl<T: Drop> From<AllocFailed<T>> for Fault {
    fn from(_error: AllocFailed<T>) -> Fault {
        Fault::NoMemory
    }
}

/// The line without its comment and the spaces around it.
pub fn bare(line: &str) -> &str {
    match line.split_once('#') {
        Some((before, _)) => before.trim(),
        None => line.trim(),
    }
}

/// The step of these words; some have programs beside them.
pub fn parse(words: &[&str]) -> Result<Step, Fault> {
    let (first, rest) = words.split_first().ok_or(Fault::Shape)?;
    choose(first, rest)
}

/// The programs that come beside the step of these words.
pub fn programs(heap: Global, words: &[&str]) -> Result<Vec<Digest>, Fault> {
    let mut digests = Vec::new(heap);
    for word in words.iter().skip(before(words)) {
        let label: Label = word.parse()?;
        digests.push(label.digest())?;
    }
    Ok(digests)
}

/// How many words come before them.
fn before(words: &[&str]) -> usize {
    match words {
        ["good", ..] => 2,
        ["fleet" | "rows", ..] => 3,
        _ => words.len(),
    }
}

fn choose(first: &str, rest: &[&str]) -> Result<Step, Fault> {
    match first {
        "fleet" => fleet(rest),
        "wipe" => disks::wipe(rest),
        "file" => disks::file(rest),
        "list" => disks::list(rest),
        "switch" => chips::switch(rest),
        "start" => chips::start(rest),
        "load" => chips::load(rest),
        "put" => chips::put(rest),
        "run" => chips::run(rest),
        "sign" => chips::sign(rest),
        "count" => chips::count(rest),
        "read" => chips::read(rest),
        "keep" => chips::keep(rest),
        "close" => chips::close(rest),
        "open" => chips::open(rest),
        "cut" => chips::cut(rest),
        "chip" => judges::chip(rest),
        "good" => judges::good(rest),
        "rows" => judges::rows(rest),
        "ticks" => judges::ticks(rest),
        "ask" => judges::ask(rest),
        "answer" => judges::answer(rest),
        "fall" => judges::fall(rest),
        "net" => judges::net(rest),
        "has" => has(rest),
        _ => Err(Fault::Unknown),
    }
}

fn fleet(rest: &[&str]) -> Result<Step, Fault> {
    match rest {
        [m, j, ..] => Ok(Step::Fleet(count(m)?, count(j)?)),
        _ => Err(Fault::Shape),
    }
}

fn has(rest: &[&str]) -> Result<Step, Fault> {
    match rest {
        [data] => Ok(Step::Has(label(data)?.data())),
        _ => Err(Fault::Shape),
    }
}

pub(crate) fn label(word: &str) -> Result<Label, Fault> {
    word.parse()
}

/// A machine's or a judge's place, a list's or a chip's number, or a number of ticks.
pub(crate) fn number<T: FromStr>(word: &str) -> Result<T, Fault>
where
    <T as FromStr>::Err: Drop,
{
    match word.parse::<T>() {
        Ok(n) => Ok(n),
        Err(_) => Err(Fault::NoNumber),
    }
}

/// How many machines or judges: no more than a small computer has room for.
fn count(word: &str) -> Result<u32, Fault> {
    let n: u8 = number(word)?;
    Ok(u32::from(n))
}

/// The row of these programs.
pub(crate) fn row(words: &[&str]) -> Result<Register, Fault> {
    let mut row = Register::empty();
    for word in words {
        row = row.with(label(word)?.digest()).ok_or(Fault::TooMany)?;
    }
    Ok(row)
}
