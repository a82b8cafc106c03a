//! The lines of a script: reads the words of one into plain values. It knows nothing of machines and judges.

#![tactic(auto)]

pub mod faults;
pub mod labels;
pub mod lines;
pub mod numbers;
pub mod verbs;
