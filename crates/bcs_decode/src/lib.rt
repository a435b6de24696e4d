//! Decodes and validates BCS (Binary Canonical Serialization), and finds parts of encoded values.
#![tactic(auto)]

mod decoding;
mod scanning;
mod slice_decoding;
mod slice_parts;
mod source_scanning;

pub use bcs_decode_parts::{Part, Step, laws as part_laws};
pub use bcs_decode_spec::{DecodeFault, Reason, Stop, laws};
pub use bcs_io::{ByteSource, ReadSource, SliceSource, SourceFailed, pieces};
pub use decoding::{decode_all, decode_from};
pub use scanning::scan;
pub use slice_decoding::{decode_encoded, decode_slice};
pub use slice_parts::part;
pub use source_scanning::{scan_all, scan_from};
