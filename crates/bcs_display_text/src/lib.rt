//! Parts of a printed line: escaped text, numbers, hexadecimal digits, colors and columns.
#![tactic(auto)]

pub mod colors;
pub mod columns;
pub mod escaping;
pub mod laws;
pub mod style;
