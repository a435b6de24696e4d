//! Schemas of containers.

use crate::formats::{format_schema, formats_schema};
use crate::pieces::{choice_schema, reject_all, single_schema, type_schema};
use bcs_registry::{Container, Format, Named, Registry, VariantFormat};
use bcs_value::Limits;
use serde_json::{Map, Value, json};
use std::alloc::{AllocError, Global};
use std::collections::BTreeMap;

/// The schema of a container: it accepts the JSON of the container's values.
pub(crate) fn container_schema(
    alloc: Global,
    registry: &Registry,
    container: &Container,
) -> Result<Value, AllocError> {
    match container {
        Container::UnitStruct => type_schema(alloc, "null"),
        Container::NewTypeStruct(format) if is_newtypes_alone(registry, format) => reject_all(
            alloc,
            "more newtype structs in one another than may be open",
        ),
        Container::NewTypeStruct(format) => format_schema(alloc, registry, format),
        Container::TupleStruct(formats) => formats_schema(alloc, registry, formats),
        Container::Struct(fields) => fields_schema(alloc, registry, fields),
        Container::Enum(variants) => variants_schema(alloc, registry, variants),
    }
}

/// Whether `format` is a chain of newtype structs that reaches the depth limit. All JSON is then `TooDeep`, and a
/// validator could follow the `$ref`s forever.
pub(crate) fn is_newtypes_alone(registry: &Registry, format: &Format) -> bool {
    let mut format = format;
    for _ in 0..Limits::standard().depth() {
        let Format::TypeName(name) = format else {
            return false;
        };
        match registry.container(name.as_str()) {
            Some(Container::NewTypeStruct(content)) => format = content,
            _ => return false,
        }
    }
    true
}

/// The schema of an object with exactly these fields. `required` lists them in their order.
fn fields_schema(
    alloc: Global,
    registry: &Registry,
    fields: &[Named<Format>],
) -> Result<Value, AllocError> {
    let mut properties = Map::new(alloc);
    let mut required = Vec::with_capacity(alloc, fields.len())?;
    for field in fields {
        let schema = format_schema(alloc, registry, &field.value)?;
        serde_json::put(&mut properties, alloc, field.name.as_str(), schema)?;
        required.push(Value::try_from_str(alloc, field.name.as_str())?)?;
    }
    json!(in alloc; {
        "type": "object",
        "properties": (Value::Object(properties)),
        "required": (Value::Array(required)),
        "additionalProperties": false
    })
}

/// The schema of an enum: the name of a unit variant as a string, or an object with one member for any variant.
fn variants_schema(
    alloc: Global,
    registry: &Registry,
    variants: &BTreeMap<u32, Named<VariantFormat>>,
) -> Result<Value, AllocError> {
    let mut names = Vec::new(alloc);
    let mut choices = Vec::new(alloc);
    for (_, variant) in variants {
        let name = variant.name.as_str();
        if let VariantFormat::Unit = variant.value {
            names.push(Value::try_from_str(alloc, name)?)?;
        }
        let payload = payload_schema(alloc, registry, &variant.value)?;
        choices.push(single_schema(alloc, name, payload)?)?;
    }
    if !names.is_empty() {
        choices.push(json!(in alloc; {"enum": (Value::Array(names))})?)?;
    }
    choice_schema(alloc, choices)
}

fn payload_schema(
    alloc: Global,
    registry: &Registry,
    payload: &VariantFormat,
) -> Result<Value, AllocError> {
    match payload {
        VariantFormat::Unit => type_schema(alloc, "null"),
        VariantFormat::NewType(format) => format_schema(alloc, registry, format),
        VariantFormat::Tuple(formats) => formats_schema(alloc, registry, formats),
        VariantFormat::Struct(fields) => fields_schema(alloc, registry, fields),
    }
}
