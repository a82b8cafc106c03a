//! The two places of a chip's memory that hold its counter and its number over every power loss: what stands in a place,
//! and which of the two is the latest.
#![tactic(auto)]

pub mod keepers;
pub mod laws;
pub mod marks;
pub mod memories;
pub mod places;
pub mod storages;
