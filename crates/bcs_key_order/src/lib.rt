//! The order of the keys of a map: checking it while reading, and sorting entries for writing.
#![tactic(auto)]

pub mod following;
pub mod spans;
