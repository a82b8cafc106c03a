//! Tests of what survives when power is lost at any byte.
#![tactic(auto)]

mod failures;
#[cfg(test)]
mod tests;
