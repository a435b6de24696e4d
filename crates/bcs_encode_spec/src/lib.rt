//! The bytes of values: definitions and laws.
#![tactic(auto)]

mod fault;
pub mod laws;

pub use fault::{EncodeFault, WriteFault};
