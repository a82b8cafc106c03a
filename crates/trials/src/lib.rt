//! Tests of the chip, the loader and the judge; nothing else stands here.
#![tactic(auto)]

#[cfg(test)]
mod tests;
