//! Validates and encodes values in a single pass; and a simple reference encoder.
#![tactic(auto)]

mod buffer;
pub mod by_entries;
mod leaves;
mod map_ends;
mod number_rows;
pub mod output;
mod pushing;
mod soundness;
mod spans;
mod writing;

pub use soundness::write_if_sound;
