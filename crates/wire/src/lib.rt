//! How any word is read and written: its fields by their layout, high byte first, and why a word is refused.

#![tactic(auto)]

pub mod digests;
pub mod fields;
pub mod kinds;
pub mod numbers;
pub mod refusals;
