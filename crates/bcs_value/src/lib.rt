//! Value trees: what BCS bytes and JSON documents represent.
#![tactic(auto)]

mod counting;
mod fitting;
mod limits;
mod nesting;
mod sameness;

pub use bcs_value_model::{Value, laws, slot};
pub use counting::nodes;
pub use fitting::{fits_loosely, has_format};
pub use limits::Limits;
pub use nesting::depth;
pub use sameness::same;
