//! The JSON of formats and fields.
ghost use Rattle.std.specs.Prelude.{◌≡◌, IfOk, codes, map};
ghost use Rattle.bcs_registry_json.specs.Shown.{single, shown_format, shown_formats, shown_struct};
ghost use Rattle.bcs_registry_model.specs.View.{shape_of, formats_shapes, field_of};
ghost use Rattle.serde_json.specs.Data.{object, member, no_members, number, unsigned};
ghost use Rattle.serde_json.specs.View.{view, items_view};

use super::pieces::{single_member, word};
use bcs_registry_model::{Format, Kind, Named};
use serde_json::{Value, json};
use std::alloc::{AllocError, Global};

/// The JSON of a map format.
fn map_value(alloc: Global, key: Value, value: Value) -> Result<Value, AllocError>
    ensures { IfOk result (λ v. view v ≡ single (codes "MAP") (object
        (member (codes "KEY") (view key) (member (codes "VALUE") (view value) no_members)))) }
{
    json!(in alloc; {"MAP": {"KEY": key, "VALUE": value}})
}

/// The JSON of an array format with `size` elements.
fn array_value(alloc: Global, content: Value, size: u64) -> Result<Value, AllocError>
    ensures { IfOk result (λ v. view v ≡ single (codes "TUPLEARRAY") (object
        (member (codes "CONTENT") (view content) (member (codes "SIZE") (number (unsigned size)) no_members)))) }
{
    json!(in alloc; {"TUPLEARRAY": {"CONTENT": content, "SIZE": size}})
}

/// The JSON of a format: a string, or an object with one member.
#[cycle(format_value)]
pub fn format_value(alloc: Global, format: &Format) -> Result<Value, AllocError>
    ensures { IfOk result (λ v. view v ≡ shown_format (shape_of format.now)) }
{
    match format.kind() {
        Kind::Scalar(scalar) => word(alloc, scalar.word()),
        Kind::TypeName(name) => single_member(alloc, "TYPENAME", word(alloc, name)?),
        Kind::Opt(content) => single_member(alloc, "OPTION", format_value(alloc, content)?),
        Kind::Seq(content) => single_member(alloc, "SEQ", format_value(alloc, content)?),
        Kind::Map(key, value) => {
            map_value(
                alloc,
                format_value(alloc, key)?,
                format_value(alloc, value)?,
            )
        }
        Kind::Tuple(formats) => {
            single_member(alloc, "TUPLE", Value::Array(format_values(alloc, formats)?))
        }
        Kind::TupleArray(content, size) => {
            array_value(alloc, format_value(alloc, content)?, size)
        }
    }
}

/// The JSON of each format, in the same order.
#[cycle(format_value)]
pub fn format_values(alloc: Global, formats: &[Format]) -> Result<Vec<Value>, AllocError>
    ensures { IfOk result (λ v. items_view v.items ≡ shown_formats (formats_shapes formats.now)) }
{
    let mut values = Vec::with_capacity(alloc, formats.len())?;
    for format in formats {
        values.push(format_value(alloc, format)?)?;
    }
    Ok(values)
}

/// The JSON of each field, in the same order: an object with one member.
pub fn field_values(alloc: Global, fields: &Vec<Named<Format>>) -> Result<Vec<Value>, AllocError>
    ensures { IfOk result (λ v. items_view v.items ≡ shown_struct (map field_of fields.now.items)) }
{
    let mut values = Vec::with_capacity(alloc, fields.len())?;
    for field in fields {
        let value = format_value(alloc, &field.value)?;
        values.push(single_member(alloc, field.name.as_str(), value)?)?;
    }
    Ok(values)
}
