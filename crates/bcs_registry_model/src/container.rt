//! Containers, as in serde-reflection.

use crate::format::Format;
use crate::named::Named;
use crate::variant_format::VariantFormat;
use std::collections::BTreeMap;

/// The definition of a container: a struct or an enum.
#[derive(Debug, Drop)]
pub enum Container {
    UnitStruct,
    NewTypeStruct(Format),
    TupleStruct(Vec<Format>),
    /// The fields, in the order of their encoding.
    Struct(Vec<Named<Format>>),
    /// The variants, by number.
    Enum(BTreeMap<u32, Named<VariantFormat>>),
}
