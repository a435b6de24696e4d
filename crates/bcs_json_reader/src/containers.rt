//! Reads the contents of containers.
ghost use Rattle.std.specs.Prelude.{◌≡◌, Some, map};
ghost use Rattle.serde_json.specs.View.{view};
ghost use Rattle.bcs_registry_model.specs.Container.{container_at, enumeration};
ghost use Rattle.bcs_registry_model.specs.Ranges.{IsOrderly};
ghost use Rattle.bcs_registry_model.specs.View.{field_of, payload_of, choice_of};
ghost use Rattle.bcs_registry_model.specs.WellFormed.{IsWellFormed};
ghost use Rattle.bcs_value_model.specs.View.{tree_of};
ghost use Rattle.bcs_json_spec.specs.JsonContent.{json_content_at, payload_content};
ghost use Rattle.bcs_json_spec.specs.Place.{value, struct_parts, enum_parts, named_parts, parts};
ghost use Rattle.bcs_json_spec.specs.Reading as spec;
ghost use Rattle.bcs_json_spec.specs.Reading.{Reports, read_data};
ghost use Rattle.bcs_json_reader.specs.Refused.{fault_alone, IsPlaced};

use crate::leaves::read_unit;
use crate::names::{container_called, open_container, read_word, variant_called};
use crate::objects::{EnumJson, enum_of, object_of};
use crate::parts::read_fields;
use crate::reading::{read, read_tuple};
use crate::refusal::{Refusal, at_member};
use bcs_registry::{Container, Format, Named, Registry, VariantFormat};
use bcs_value_model::Value;
use serde_json::Value as Json;
use std::alloc::Global;
use std::collections::BTreeMap;

/// Reads a value of the container `name`.
#[cycle(reading)]
pub(crate) fn read_named(
    alloc: Global,
    registry: &Registry,
    name: &str,
    left: u32,
    json: Json,
) -> Result<Value, Refusal>
    ensures reports { Reports tree_of (fault_alone result) (spec.read_named registry.now left name.now (view json)) }
    ensures placed { IsPlaced registry.now (named_parts registry.now left name.now (view json)) result }
{
    let inside = open_container(left)?;
    let value = read_content(alloc, registry, name, inside, json)?;
    Ok(Value::Named(Box::new(alloc, value)?))
}

/// Reads the contents of the container `name`.
#[cycle(reading)]
fn read_content(
    alloc: Global,
    registry: &Registry,
    name: &str,
    left: u32,
    json: Json,
) -> Result<Value, Refusal>
    ensures reports { Reports tree_of (fault_alone result) (read_data registry.now left (json_content_at name.now registry.now) (view json)) }
    ensures placed { IsPlaced registry.now (parts registry.now left (value (json_content_at name.now registry.now)) (view json)) result }
{
    match container_called(registry, name)? {
        Container::UnitStruct => Ok(read_unit(json)?),
        Container::NewTypeStruct(format) => read(alloc, registry, format, left, json),
        Container::TupleStruct(formats) => read_tuple(alloc, registry, formats, left, json),
        Container::Struct(fields) => read_struct(alloc, registry, fields, left, json),
        Container::Enum(variants) => read_enum(alloc, registry, name, variants, left, json),
    }
}

/// Reads an object with exactly one member for each field.
#[cycle(reading)]
fn read_struct(
    alloc: Global,
    registry: &Registry,
    fields: &[Named<Format>],
    left: u32,
    json: Json,
) -> Result<Value, Refusal>
    ensures reports { Reports tree_of (fault_alone result) (spec.read_struct (spec.read_named registry.now left) (map field_of fields.now) (view json)) }
    ensures placed { IsPlaced registry.now (struct_parts left (map field_of fields.now) (view json)) result }
{
    let members = object_of(json)?;
    Ok(Value::Items(read_fields(alloc, registry, fields, left, members)?))
}

/// Reads an enum: the name of a unit variant, or an object whose only member is the variant's name with its payload.
#[cycle(reading)]
fn read_enum(
    alloc: Global,
    registry: &Registry,
    name: &str,
    variants: &BTreeMap<u32, Named<VariantFormat>>,
    left: u32,
    json: Json,
) -> Result<Value, Refusal>
    requires stands { container_at name.now registry.now ≡ Some (enumeration (map choice_of variants.now.entries)) }
    requires well_formed { IsWellFormed registry.now }
    requires orderly { IsOrderly registry.now }
    ensures reports { Reports tree_of (fault_alone result) (spec.read_enum (spec.read_named registry.now left) (map choice_of variants.now.entries) (view json)) }
    ensures placed { IsPlaced registry.now (enum_parts left (map choice_of variants.now.entries) (view json)) result }
{
    match enum_of(json)? {
        EnumJson::Name(word) => Ok(read_word(alloc, registry, name, variants, word)?),
        EnumJson::Member(word, part) => {
            let (number, variant) = variant_called(registry, name, variants, word.as_str())?;
            let outcome = read_payload(alloc, registry, &variant.value, left, part);
            let value = at_member(alloc, word.as_str(), outcome)?;
            Ok(Value::Variant(number, Box::new(alloc, value)?))
        }
    }
}

/// Reads the payload of a variant.
#[cycle(reading)]
fn read_payload(
    alloc: Global,
    registry: &Registry,
    payload: &VariantFormat,
    left: u32,
    json: Json,
) -> Result<Value, Refusal>
    ensures reports { Reports tree_of (fault_alone result) (spec.read_part (spec.read_named registry.now left) (payload_content (payload_of payload.now)) (view json)) }
    ensures placed { IsPlaced registry.now (parts registry.now left (value (payload_content (payload_of payload.now))) (view json)) result }
{
    match payload {
        VariantFormat::Unit => Ok(read_unit(json)?),
        VariantFormat::NewType(format) => read(alloc, registry, format, left, json),
        VariantFormat::Tuple(formats) => read_tuple(alloc, registry, formats, left, json),
        VariantFormat::Struct(fields) => read_struct(alloc, registry, fields, left, json),
    }
}
