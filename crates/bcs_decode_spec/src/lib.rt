//! Decoding: definitions of the value that bytes represent and of where and why they stop being one, and laws, for
//! example that there is exactly one verdict.
#![tactic(auto)]

mod decode_fault;
pub mod integer_width;
pub mod laws;
mod out_of_memory;
mod reason;
mod stop;

pub use decode_fault::DecodeFault;
pub use reason::Reason;
pub use stop::Stop;
