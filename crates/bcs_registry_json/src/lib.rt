//! Reads formats and containers from JSON, prints them as JSON, and measures how deep JSON nests.
#![tactic(auto)]

pub mod container_text;
pub mod format_text;
mod json_part;
mod json_reading;
pub mod json_text;
mod members;
mod nesting;
pub mod one_by_one;
pub mod printing;
pub mod shaped;
mod variant_number;

pub use json_reading::{TextFault, read_json};
pub use nesting::{NESTING_LIMIT, nests_within};
