//! A JSON Schema for the JSON representation of a format: what `bcs schema` prints.
#![tactic(auto)]

mod containers;
mod decimals;
mod definitions;
mod digits;
mod document;
mod formats;
mod lists;
mod pieces;
mod references;
mod schema;
mod whole_numbers;

pub use schema::schema_text;
