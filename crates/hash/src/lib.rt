//! SHA-256 and HMAC-SHA-256, and a comparison that looks at every byte.
#![tactic(auto)]

mod blocks;
mod buffers;
pub mod comparisons;
mod constants;
pub mod digests;
mod endings;
pub mod hashers;
pub mod keys;
pub mod laws;
mod words;
