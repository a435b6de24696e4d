//! Formats, as in serde-reflection.

/// The type of a value.
#[derive(Debug, Drop)]
pub enum Format {
    Unit,
    Bool,
    I8,
    I16,
    I32,
    I64,
    I128,
    U8,
    U16,
    U32,
    U64,
    U128,
    /// Accepted in registries, but no value has it. The same applies to `F64` and `Char`.
    F32,
    F64,
    Char,
    Str,
    Bytes,
    /// The container with this name.
    TypeName(String),
    Opt(Box<Format>),
    /// A list of any length.
    Seq(Box<Format>),
    /// A finite map from keys to values.
    Map(Box<Format>, Box<Format>),
    Tuple(Vec<Format>),
    /// A fixed number of elements of one format.
    TupleArray(Box<Format>, u64),
}
