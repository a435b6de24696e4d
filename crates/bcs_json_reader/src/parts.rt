//! Reads the parts of a value in order, up to the first fault.
ghost use Rattle.std.specs.Prelude.{map};
ghost use Rattle.serde_json.specs.View.{view, items_view, members_view};
ghost use Rattle.bcs_registry_model.specs.View.{shape_of, formats_shapes, field_of};
ghost use Rattle.bcs_value_model.specs.View.{tree_of, items_trees, entries_pairs};
ghost use Rattle.bcs_json_spec.specs.JsonContent.{of};
ghost use Rattle.bcs_json_spec.specs.Place.{item_parts, each_parts, entry_parts, pair_parts, field_parts};
ghost use Rattle.bcs_json_spec.specs.Reading as spec;
ghost use Rattle.bcs_json_spec.specs.Reading.{Reports, read_data};
ghost use Rattle.bcs_json_reader.specs.Refused.{fault_alone, IsPlaced};

use crate::arrays::pair_of;
use crate::numbers::read_numbers;
use crate::objects::{no_member_left, take_field};
use crate::reading::read;
use crate::refusal::{Refusal, at_item, at_member};
use bcs_json_spec::JsonFault;
use bcs_registry::{Format, Named, Registry};
use bcs_registry_model::IntegerKind;
use bcs_value_model::Value;
use serde_json::{Map, Value as Json};
use std::alloc::Global;

/// Reads items of one format.
#[cycle(reading)]
pub(crate) fn read_all(
    alloc: Global,
    registry: &Registry,
    element: &Format,
    left: u32,
    items: Vec<Json>,
) -> Result<Vec<Value>, Refusal>
    ensures reports { Reports (λ v. items_trees v.items) (fault_alone result)
        (spec.read_all (read_data registry.now left (of (shape_of element.now))) (items_view items.items)) }
    ensures placed { IsPlaced registry.now (item_parts left (shape_of element.now) 0 (items_view items.items)) result }
{
    if let Some(number) = IntegerKind::of(element) {
        return read_numbers(alloc, number, items);
    }
    let mut found = Vec::with_capacity(alloc, items.len())?;
    for item in items {
        let outcome = read(alloc, registry, element, left, item);
        let value = at_item(alloc, found.len(), outcome)?;
        found.push(value)?;
    }
    Ok(found)
}

/// Reads one item of each format.
#[cycle(reading)]
pub(crate) fn read_each(
    alloc: Global,
    registry: &Registry,
    formats: &[Format],
    left: u32,
    items: Vec<Json>,
) -> Result<Vec<Value>, Refusal>
    ensures reports { Reports (λ v. items_trees v.items) (fault_alone result)
        (spec.read_each (spec.read_named registry.now left) (formats_shapes formats.now) (items_view items.items)) }
    ensures placed { IsPlaced registry.now (each_parts left (formats_shapes formats.now) 0 (items_view items.items)) result }
{
    let mut found = Vec::with_capacity(alloc, formats.len())?;
    let mut rest = items.into_iter();
    for format in formats {
        let Some(item) = rest.next() else {
            return Err(Refusal::from(JsonFault::BadShape));
        };
        let outcome = read(alloc, registry, format, left, item);
        let value = at_item(alloc, found.len(), outcome)?;
        found.push(value)?;
    }
    Ok(found)
}

/// Reads map entries, each an array of a key and its value.
#[cycle(reading)]
pub(crate) fn read_pairs(
    alloc: Global,
    registry: &Registry,
    key: &Format,
    content: &Format,
    left: u32,
    items: Vec<Json>,
) -> Result<Vec<(Value, Value)>, Refusal>
    ensures reports { Reports (λ v. entries_pairs v.items) (fault_alone result)
        (spec.read_pairs (read_data registry.now left (of (shape_of key.now))) (read_data registry.now left (of (shape_of content.now))) (items_view items.items)) }
    ensures placed { IsPlaced registry.now (entry_parts left (shape_of key.now) (shape_of content.now) 0 (items_view items.items)) result }
{
    let mut found = Vec::with_capacity(alloc, items.len())?;
    for item in items {
        let outcome = read_entry(alloc, registry, key, content, left, item);
        let entry = at_item(alloc, found.len(), outcome)?;
        found.push(entry)?;
    }
    Ok(found)
}

/// Reads an array of a key and its value.
#[cycle(reading)]
fn read_entry(
    alloc: Global,
    registry: &Registry,
    key: &Format,
    content: &Format,
    left: u32,
    json: Json,
) -> Result<(Value, Value), Refusal>
    ensures reports { Reports (λ p. (tree_of p.0, tree_of p.1)) (fault_alone result)
        (spec.read_pair (read_data registry.now left (of (shape_of key.now))) (read_data registry.now left (of (shape_of content.now))) (view json)) }
    ensures placed { IsPlaced registry.now (pair_parts left (shape_of key.now) (shape_of content.now) (view json)) result }
{
    let (first, second) = pair_of(json)?;
    let name = at_item(alloc, 0, read(alloc, registry, key, left, first))?;
    let value = at_item(alloc, 1, read(alloc, registry, content, left, second))?;
    Ok((name, value))
}

/// Reads one value for each field, and removes its member. No member may be left at the end.
#[cycle(reading)]
pub(crate) fn read_fields(
    alloc: Global,
    registry: &Registry,
    fields: &[Named<Format>],
    left: u32,
    members: Map<String, Json>,
) -> Result<Vec<Value>, Refusal>
    ensures reports { Reports (λ v. items_trees v.items) (fault_alone result)
        (spec.read_fields (spec.read_named registry.now left) (map field_of fields.now) (members_view members.entries)) }
    ensures placed { IsPlaced registry.now (field_parts left (map field_of fields.now) (members_view members.entries)) result }
{
    let mut members = members;
    let mut found = Vec::with_capacity(alloc, fields.len())?;
    for field in fields {
        let member = take_field(&mut members, field.name.as_str())?;
        let outcome = read(alloc, registry, &field.value, left, member);
        let value = at_member(alloc, field.name.as_str(), outcome)?;
        found.push(value)?;
    }
    no_member_left(&members)?;
    Ok(found)
}
