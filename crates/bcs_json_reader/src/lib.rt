//! Reads a value from parsed JSON, whose parts are moved, not copied.
#![tactic(auto)]

mod arrays;
mod containers;
mod hexadecimal;
mod leaves;
mod names;
mod numbers;
mod objects;
mod parts;
pub mod reading;
pub mod refusal;
