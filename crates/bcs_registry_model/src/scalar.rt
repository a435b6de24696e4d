//! Formats without parts, by the kind of their values.
use crate::integer_kind::IntegerKind;

/// A format without parts.
#[derive(Clone, Copy, PartialEq, Eq)]
pub enum Scalar {
    Unit,
    Bool,
    Whole(IntegerKind),
    Unsupported(Unsupported),
    Str,
    Bytes,
}

/// The formats that are accepted in registries, but have no values.
#[derive(Clone, Copy, PartialEq, Eq)]
pub enum Unsupported {
    F32,
    F64,
    Char,
}
