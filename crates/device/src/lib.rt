//! A chip by value: its register is a short array of digests, and signatures and seals are values that hold what was
//! signed or sealed and by which chip, so that a false one is one that does not match.
#![tactic(auto)]

pub mod chips;
pub mod digests;
pub mod refusals;
pub mod registers;
