//! The chip, its commands and its answers.

pub mod steps;
pub mod things;

use crate::digests::{Data, Digest};
use crate::registers::Register;

/// A chip: its row, its counter, and the number of the next thing that it closes.
#[derive(Clone, Copy)]
pub struct Chip {
    id: u32,
    register: Register,
    counter: u64,
    number: u64,
}

#[derive(Clone, Copy, PartialEq)]
pub enum Command {
    Put(Digest),
    Sign(Data),
    Count,
    Close(Target, Data),
    Open(Thing),
    Read,
    /// Comes from the switch alone, by an entrance of its own.
    SwitchedOn,
}

#[derive(Clone, Copy, PartialEq)]
pub enum Answer {
    Done,
    Signed(Signature),
    Counter(u64),
    Closed(Thing),
    Opened(Data),
    Now(u64, Register),
}

/// What a thing is closed for: a row of programs, or what is no row, for which no chip opens it.
#[derive(Clone, Copy, PartialEq)]
pub enum Target {
    Row(Register),
    Nowhere,
}

/// What was signed: the chip, the data that it was given, and its register of then.
#[derive(Clone, Copy, PartialEq)]
pub struct Signature {
    pub chip: u32,
    pub data: Data,
    pub register: Register,
}

/// What was closed: under which number, for which target and counter, and the data inside.
#[derive(Clone, Copy, PartialEq)]
pub struct Content {
    pub number: u64,
    pub target: Target,
    pub counter: u64,
    pub data: Data,
}

/// What was sealed, and by which chip.
#[derive(Clone, Copy, PartialEq)]
pub struct Seal {
    pub chip: u32,
    pub content: Content,
}

/// What a chip gives out when it closes something: the content with a seal over it.
#[derive(Clone, Copy, PartialEq)]
pub struct Thing {
    pub content: Content,
    pub seal: Seal,
}
