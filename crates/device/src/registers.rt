//! The chip's register: the row of digests put into it since the switch.

ghost use Rattle.std.specs.Prelude.{◌≡◌, ◌≤◌, length};

pub mod rows;

use crate::digests::Digest;

/// A row of at most sixteen digests, the oldest first. An array with its length, since a chip has fixed memory and no heap.
#[derive(Clone, Copy)]
pub struct Register {
    digests: [Digest; 16],
    len: usize,
    ghost long: { length digests ≡ 16 },
    ghost fits: { len ≤ 16 },
}
