//! A judge by value: it asks chips that it knows, and accepts what they signed if it is one of its lists.
#![tactic(auto)]

pub mod judges;
