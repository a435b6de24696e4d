//! Reads a value from parsed JSON. Each function consumes its JSON, and returns the value that it spells or the first
//! fault. The location of a fault is built on the way out, from the innermost step to the outermost.
ghost use Rattle.serde_json.specs.View.{view};
ghost use Rattle.bcs_registry_model.specs.View.{shape_of, formats_shapes};
ghost use Rattle.bcs_registry_model.specs.Shape.{tuple as tuple_shape};
ghost use Rattle.bcs_value_model.specs.View.{tree_of};
ghost use Rattle.bcs_json_spec.specs.Bytes.{is_byte};
ghost use Rattle.bcs_json_spec.specs.JsonContent.{of};
ghost use Rattle.bcs_json_spec.specs.Place.{value, option_parts, seq_parts, map_parts, tuple_parts, array_parts, parts};
ghost use Rattle.bcs_json_spec.specs.Reading as spec;
ghost use Rattle.bcs_json_spec.specs.Reading.{Reports, read_data};
ghost use Rattle.bcs_json_reader.specs.Refused.{fault_alone, IsPlaced};

use crate::arrays::{ListJson, array_of, array_of_exactly, exactly, list_of};
use crate::containers::read_named;
use crate::hexadecimal::{read_byte_array, read_byte_text};
use crate::leaves::read_leaf;
use crate::objects::option_of;
use crate::parts::{read_all, read_each, read_pairs};
use crate::refusal::{Refusal, at_member};
use bcs_registry::{Format, Registry};
use bcs_registry_model::Kind;
use bcs_value_model::Value;
use serde_json::Value as Json;
use std::alloc::Global;

/// Reads a value of `format`. At most `left` more containers may be opened.
#[cycle(reading)]
pub fn read(
    alloc: Global,
    registry: &Registry,
    format: &Format,
    left: u32,
    json: Json,
) -> Result<Value, Refusal>
    ensures reports { Reports tree_of (fault_alone result) (read_data registry.now left (of (shape_of format.now)) (view json)) }
    ensures placed { IsPlaced registry.now (parts registry.now left (value (of (shape_of format.now))) (view json)) result }
{
    match format.kind() {
        Kind::Scalar(_) => Ok(read_leaf(alloc, format, json)?),
        Kind::TypeName(name) => read_named(alloc, registry, name, left, json),
        Kind::Opt(content) => read_option(alloc, registry, content, left, json),
        Kind::Seq(element) => read_list(alloc, registry, element, left, json),
        Kind::Map(key, content) => read_map(alloc, registry, key, content, left, json),
        Kind::Tuple(formats) => read_tuple(alloc, registry, formats, left, json),
        Kind::TupleArray(element, size) => {
            read_array(alloc, registry, element, size, left, json)
        }
    }
}

/// Reads an option: `null`, or an object with the single member `some`.
#[cycle(reading)]
fn read_option(
    alloc: Global,
    registry: &Registry,
    content: &Format,
    left: u32,
    json: Json,
) -> Result<Value, Refusal>
    ensures reports { Reports tree_of (fault_alone result) (spec.read_option (read_data registry.now left (of (shape_of content.now))) (view json)) }
    ensures placed { IsPlaced registry.now (option_parts left (shape_of content.now) (view json)) result }
{
    match option_of(json)? {
        None => Ok(Value::Absent),
        Some(part) => {
            let outcome = read(alloc, registry, content, left, part);
            let value = at_member(alloc, "some", outcome)?;
            Ok(Value::Present(Box::new(alloc, value)?))
        }
    }
}

/// Reads a list: an array or, for bytes, hexadecimal digits.
#[cycle(reading)]
fn read_list(
    alloc: Global,
    registry: &Registry,
    element: &Format,
    left: u32,
    json: Json,
) -> Result<Value, Refusal>
    ensures reports { Reports tree_of (fault_alone result)
        (spec.read_seq (is_byte (shape_of element.now)) (read_data registry.now left (of (shape_of element.now))) (view json)) }
    ensures placed { IsPlaced registry.now (seq_parts left (shape_of element.now) (view json)) result }
{
    match list_of(json)? {
        ListJson::Array(items) => {
            Ok(Value::Items(read_all(alloc, registry, element, left, items)?))
        }
        ListJson::Text(text) => Ok(Value::Items(read_byte_text(alloc, element, text)?)),
    }
}

/// Reads an array of `size` elements or, for bytes, `2 * size` hexadecimal digits.
#[cycle(reading)]
fn read_array(
    alloc: Global,
    registry: &Registry,
    element: &Format,
    size: u64,
    left: u32,
    json: Json,
) -> Result<Value, Refusal>
    ensures reports { Reports tree_of (fault_alone result)
        (spec.read_array (is_byte (shape_of element.now)) size (read_data registry.now left (of (shape_of element.now))) (view json)) }
    ensures placed { IsPlaced registry.now (array_parts left (shape_of element.now) size (view json)) result }
{
    match list_of(json)? {
        ListJson::Array(items) => {
            exactly(items.len(), size)?;
            Ok(Value::Items(read_all(alloc, registry, element, left, items)?))
        }
        ListJson::Text(text) => Ok(Value::Items(read_byte_array(alloc, element, size, text)?)),
    }
}

/// Reads an array with one item of each format.
#[cycle(reading)]
pub(crate) fn read_tuple(
    alloc: Global,
    registry: &Registry,
    formats: &[Format],
    left: u32,
    json: Json,
) -> Result<Value, Refusal>
    ensures reports { Reports tree_of (fault_alone result) (read_data registry.now left (of (tuple_shape (formats_shapes formats.now))) (view json)) }
    ensures placed { IsPlaced registry.now (tuple_parts left (formats_shapes formats.now) (view json)) result }
{
    let items = array_of_exactly(json, formats.len() as u64)?;
    Ok(Value::Items(read_each(alloc, registry, formats, left, items)?))
}

/// Reads a map: an array of entries, each an array of a key and its value.
#[cycle(reading)]
fn read_map(
    alloc: Global,
    registry: &Registry,
    key: &Format,
    content: &Format,
    left: u32,
    json: Json,
) -> Result<Value, Refusal>
    ensures reports { Reports tree_of (fault_alone result)
        (spec.read_map (read_data registry.now left (of (shape_of key.now))) (read_data registry.now left (of (shape_of content.now))) (view json)) }
    ensures placed { IsPlaced registry.now (map_parts left (shape_of key.now) (shape_of content.now) (view json)) result }
{
    let items = array_of(json)?;
    Ok(Value::Pairs(read_pairs(alloc, registry, key, content, left, items)?))
}
