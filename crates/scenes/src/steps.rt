//! What a line asks for.

pub mod makes;

use device::digests::Data;
use fleet::fleets::Event;
use script::labels::Label;

#[derive(Clone, Copy)]
pub enum Step {
    /// A new fleet of so many machines and judges; the bad programs come beside it.
    Fleet {
        machines: u32,
        judges: u32,
    },
    /// Digests may come beside it.
    Play(Event),
    /// The signature, or the thing, that comes of it is kept under this name.
    Keep(Event, Label),
    /// At this machine, the thing of this name.
    Open {
        machine: usize,
        name: Label,
    },
    /// To this judge by the net: the signature of this name, as the chip's answer to the question.
    Answer {
        judge: usize,
        chip: u32,
        data: Data,
        list: u16,
        name: Label,
    },
    /// Whether outsiders have it.
    Has(Data),
}
