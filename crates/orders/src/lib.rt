//! A chip's words: commands, answers and things. Each is read to its end or its first fault.

#![tactic(auto)]

pub mod answers;
pub mod commands;
pub mod things;
