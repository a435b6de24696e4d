//! Reads formats from JSON.
ghost use Rattle.std.specs.Prelude.{◌≡◌, IfErr, IfOk, codes};
ghost use Rattle.serde_json.specs.Data.{number, unsigned};
ghost use Rattle.serde_json.specs.View.{view};
ghost use Rattle.bcs_registry_json.specs.Parts.{IsFaultBy, IsTupleText};
ghost use Rattle.bcs_registry_json.specs.Shaped.{is_format, is_map, is_size, is_text, is_tuple, is_tuple_array};
ghost use Rattle.bcs_registry_json.specs.Shown.{single};
ghost use Rattle.bcs_registry_json.specs.Text.{IsFormatText};
ghost use Rattle.bcs_registry_model.specs.View.{formats_shapes, shape_of};

use crate::members::{only_member, two_members};
use bcs_registry_model::words::word_format;
use bcs_registry_model::{Format, RegistryFault};
use serde_json::Value;
use std::alloc::Global;

/// Reads a format. A fault that it returns occurs in the JSON, but a lesser one may follow.
#[cycle(format_text)]
pub fn format_from(alloc: Global, value: &Value) -> Result<Format, RegistryFault>
    ensures ok { IfOk result (λ f. IsFormatText (view value.now) (shape_of f)) }
    ensures fault { IfErr result (IsFaultBy (λ loose. is_format loose (view value.now))) }
{
    match value {
        Value::String(word) => word_format(word.as_str()).ok_or(RegistryFault::BadShape),
        Value::Object(members) => match only_member(members) {
            Some((tag, part)) => tagged_format_from(alloc, tag, part),
            None => Err(RegistryFault::BadShape),
        },
        _ => Err(RegistryFault::BadShape),
    }
}

/// Reads the format represented by an object with the single member `tag`.
#[cycle(format_text)]
fn tagged_format_from(alloc: Global, tag: &str, part: &Value) -> Result<Format, RegistryFault>
    ensures ok { IfOk result (λ f. IsFormatText (single tag.now (view part.now)) (shape_of f)) }
    ensures fault { IfErr result (IsFaultBy (λ loose. is_format loose (single tag.now (view part.now)))) }
{
    match tag {
        "TYPENAME" => name_from(part),
        "OPTION" => Ok(Format::Opt(Box::new(alloc, format_from(alloc, part)?)?)),
        "SEQ" => Ok(Format::Seq(Box::new(alloc, format_from(alloc, part)?)?)),
        "MAP" => map_from(alloc, part),
        "TUPLE" => Ok(Format::Tuple(formats_from(alloc, part)?)),
        "TUPLEARRAY" => tuple_array_from(alloc, part),
        _ => Err(RegistryFault::BadShape),
    }
}

fn name_from(value: &Value) -> Result<Format, RegistryFault>
    ensures ok { IfOk result (λ f. IsFormatText (single (codes "TYPENAME") (view value.now)) (shape_of f)) }
    ensures fault { IfErr result (IsFaultBy (λ loose. is_text (view value.now))) }
{
    match value {
        Value::String(name) => Ok(Format::TypeName(name.clone()?)),
        _ => Err(RegistryFault::BadShape),
    }
}

#[cycle(format_text)]
fn map_from(alloc: Global, value: &Value) -> Result<Format, RegistryFault>
    ensures ok { IfOk result (λ f. IsFormatText (single (codes "MAP") (view value.now)) (shape_of f)) }
    ensures fault { IfErr result (IsFaultBy (λ loose. is_map loose (view value.now))) }
{
    let Value::Object(members) = value else {
        return Err(RegistryFault::BadShape);
    };
    let Some((key, value)) = two_members(members, "KEY", "VALUE") else {
        return Err(RegistryFault::BadShape);
    };
    let key = format_from(alloc, key)?;
    let value = format_from(alloc, value)?;
    Ok(Format::Map(Box::new(alloc, key)?, Box::new(alloc, value)?))
}

#[cycle(format_text)]
fn tuple_array_from(alloc: Global, value: &Value) -> Result<Format, RegistryFault>
    ensures ok { IfOk result (λ f. IsFormatText (single (codes "TUPLEARRAY") (view value.now)) (shape_of f)) }
    ensures fault { IfErr result (IsFaultBy (λ loose. is_tuple_array loose (view value.now))) }
{
    let Value::Object(members) = value else {
        return Err(RegistryFault::BadShape);
    };
    let Some((content, size)) = two_members(members, "CONTENT", "SIZE") else {
        return Err(RegistryFault::BadShape);
    };
    let content = format_from(alloc, content)?;
    let size = size_from(size)?;
    Ok(Format::TupleArray(Box::new(alloc, content)?, size))
}

fn size_from(value: &Value) -> Result<u64, RegistryFault>
    ensures ok { IfOk result (λ n. view value.now ≡ number (unsigned n)) }
    ensures fault { IfErr result (IsFaultBy (λ loose. is_size loose (view value.now))) }
{
    match value {
        Value::Number(number) => number.as_u64().ok_or(RegistryFault::BadNumber),
        _ => Err(RegistryFault::BadShape),
    }
}

/// Reads a JSON array of formats.
#[cycle(format_text)]
pub fn formats_from(alloc: Global, value: &Value) -> Result<Vec<Format>, RegistryFault>
    ensures ok { IfOk result (λ fs. IsTupleText (view value.now) (formats_shapes fs.items)) }
    ensures fault { IfErr result (IsFaultBy (λ loose. is_tuple loose (view value.now))) }
{
    let Value::Array(parts) = value else {
        return Err(RegistryFault::BadShape);
    };
    let mut formats = Vec::new(alloc);
    for part in parts {
        formats.push(format_from(alloc, part)?)?;
    }
    Ok(formats)
}
