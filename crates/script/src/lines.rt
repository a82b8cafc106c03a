//! A line that was read, and what stands at its places.

pub mod forms;
mod places;
pub mod reads;

use crate::labels::Label;
use crate::verbs::Key;

/// What a line asks for; its programs come beside it. `machine` and `judge` are places in the fleet, `chip` is a
/// chip's number, `word` stands for the data that is signed, closed, drawn or asked about, and `name` is what a file
/// is called, or what a signature or a thing is kept under.
#[derive(Clone, Copy, Debug, PartialEq, Eq)]
pub enum Line {
    Fleet {
        machines: u32,
        judges: u32,
    },
    Wipe,
    File {
        name: Label,
        then: Option<Label>,
    },
    List {
        name: Label,
        further: Option<Label>,
    },
    Switch {
        machine: u32,
    },
    Start {
        machine: u32,
        list: Label,
    },
    Load {
        machine: u32,
        name: Label,
    },
    Put {
        machine: u32,
        program: Label,
    },
    Run {
        machine: u32,
        program: Label,
    },
    Sign {
        machine: u32,
        word: Label,
        name: Label,
    },
    Count {
        machine: u32,
    },
    Read {
        machine: u32,
    },
    Keep {
        machine: u32,
        word: Label,
        name: Label,
    },
    Close {
        machine: u32,
        word: Label,
        name: Label,
    },
    Open {
        machine: u32,
        name: Label,
    },
    CutCount {
        machine: u32,
        when: When,
    },
    CutClose {
        machine: u32,
    },
    Chip {
        judge: u32,
        chip: u32,
    },
    Good {
        judge: u32,
    },
    Rows {
        judge: u32,
        list: u16,
    },
    Ticks {
        judge: u32,
        ticks: u32,
    },
    Ask {
        judge: u32,
        chip: u32,
        word: Label,
    },
    Answer {
        judge: u32,
        chip: u32,
        word: Label,
        list: u16,
        name: Label,
    },
    Fall {
        judge: u32,
    },
    Net {
        judge: u32,
        chip: u32,
    },
    Has {
        word: Label,
    },
}

/// Whether power is lost before the counter is written or after.
#[derive(Clone, Copy, Debug, PartialEq, Eq)]
pub enum When {
    Before,
    After,
}

/// What stands at one place of a line, after its verb.
#[derive(Clone, Copy, Debug, PartialEq, Eq)]
pub enum Part {
    /// Numbers up to this.
    First(u32),
    Second(u32),
    List,
    Name,
    Other,
    /// `before` or `after`.
    When,
    Word(Key),
}
