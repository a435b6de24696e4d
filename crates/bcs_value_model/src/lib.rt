//! Values, copies of them, the slots in which they are built, and laws about sameness, distinct keys and fitting.
#![tactic(auto)]

mod copying;
pub mod laws;
pub mod slot;
mod value;

pub use value::Value;
