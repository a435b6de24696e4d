//! Prints values as JSON, and checks how deep that JSON nests, each by recursion over the value.
#![tactic(auto)]

mod field_order;
mod leaves;
pub mod nesting;
mod shown;
pub mod texts;

pub use shown::Shown;
