//! Things: what a chip gives out when it closes something.

pub mod reads;
pub mod writes;

use wire::digests::Sum;

/// The most bytes that are closed.
pub const MOST_CLOSED: usize = 1024;

/// How many bytes a seal has.
pub const SEAL_SIZE: usize = 16;

/// A thing as it was read: its longer parts are parts of the word.
#[derive(Clone, Copy)]
pub struct Thing<'a> {
    pub number: u64,
    pub sum: Sum,
    pub counter: u64,
    /// What was closed, turned.
    pub turned: &'a [u8],
    /// The last sixteen bytes.
    pub seal: &'a [u8],
    /// All bytes before these, which they are over.
    pub body: &'a [u8],
}
