//! The payloads of variants.

use crate::format::Format;
use crate::named::Named;

/// The payload of a variant of an enum.
#[derive(Debug, Drop)]
pub enum VariantFormat {
    Unit,
    NewType(Format),
    Tuple(Vec<Format>),
    /// The fields, in the order of their encoding.
    Struct(Vec<Named<Format>>),
}
