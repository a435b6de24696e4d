//! Decodes or skips values from a byte source, in one forward pass.
#![tactic(auto)]

pub mod bytes;
mod containers;
mod entries;
pub mod keys;
mod leaf;
pub mod leaves;
mod maps;
pub mod names;
pub mod number;
mod number_rows;
pub mod progress;
pub mod reader;
mod room;
mod rows;
pub mod scanning;
mod share;
mod slots;
mod strings;
pub mod values;
