//! Validates and skips values in a slice of bytes, without allocating.
#![tactic(auto)]

pub mod cursor;
mod fixed_size;
pub mod fixed_size_list;
pub mod integers;
pub mod measuring;
pub mod opening;
pub mod scanning;
pub mod shallow;
