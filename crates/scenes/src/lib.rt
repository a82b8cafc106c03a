//! A script's lines as steps, and what each does to a fleet and to what was kept of it.
#![tactic(auto)]

pub mod names;
pub mod plays;
pub mod stages;
pub mod steps;
