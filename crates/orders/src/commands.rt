//! Commands to a chip.

pub mod reads;
pub mod writes;

use crate::things::Thing;
use wire::digests::{Data, Digest, Sum};

#[derive(Clone, Copy)]
pub enum Command<'a> {
    Put(Digest),
    Sign(Data),
    Count,
    Close(Sum, &'a [u8]),
    Open(Thing<'a>),
    Read,
    /// Comes from the switch alone, by an entrance of its own.
    SwitchedOn,
}
