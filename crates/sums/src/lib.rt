//! A row of digests kept as one sum, and why two rows do not have one.
#![tactic(auto)]

pub mod laws;
pub mod registers;
