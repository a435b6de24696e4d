//! What JSON texts mean, and why a text denotes no value: definitions and laws.
#![tactic(auto)]

mod causes;
mod json_fault;
mod json_step;
pub mod laws;
mod out_of_memory;

pub use json_fault::JsonFault;
pub use json_step::JsonStep;
