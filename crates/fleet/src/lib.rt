//! Machines, judges and outsiders together, by value: one public `play` for one event.
#![tactic(auto)]

pub mod fleets;
pub mod promises;
