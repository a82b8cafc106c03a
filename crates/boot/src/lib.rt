//! The loader by value: it reads start lists from a disk that outsiders own, and puts each digest into the chip before
//! it loads the program.
#![tactic(auto)]

pub mod disks;
pub mod machines;
