//! Numbers of Binary Canonical Serialization (BCS): ULEB128, little-endian integers of a fixed width, and their plain
//! decimal strings in JSON. Nothing here allocates.
#![tactic(auto)]

mod decimal;
mod fault;
pub mod laws;
mod little_endian;
mod uleb;
mod width;

pub use decimal::{parse_signed, parse_unsigned};
pub use fault::NumFault;
pub use little_endian::{
    leading_signed, leading_unsigned, put_le, put_le_signed, take_le, take_le_signed,
};
pub use uleb::{LENGTH_LIMIT, put_uleb, take_uleb};
pub use width::{GREATEST_LEN, Width};
