//! ChaCha20, as RFC 8439 has it: the block function, and the stream that turns bytes where they lie.

#![tactic(auto)]

pub mod ciphers;
mod lanes;
pub mod laws;
mod rounds;
mod states;
mod words;
