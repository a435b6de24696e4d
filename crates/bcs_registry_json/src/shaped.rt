//! Checks whether JSON has the shape of a registry or of a format, whatever its numbers are. Nothing here allocates.
ghost use Rattle.std.specs.Prelude.{◌≡◌, true};
ghost use Rattle.serde_json.specs.View.{view};
ghost use Rattle.bcs_registry_json.specs.Shaped.{are_fields, are_variants, is_container, is_field, is_format, is_map, is_payload, is_registry, is_tuple, is_tuple_array, is_variant};

use crate::members::{only_member, two_members};
use bcs_registry_model::words::word_format;
use serde_json::Value;

/// Whether the JSON has the shape of a format.
#[cycle(shaped)]
pub fn is_format_shaped(value: &Value) -> bool
    ensures { result ≡ is_format true (view value.now) }
{
    match value {
        Value::String(word) => word_format(word.as_str()).is_some(),
        Value::Object(members) => match only_member(members) {
            Some((tag, part)) => match tag {
                "TYPENAME" => part.is_string(),
                "OPTION" | "SEQ" => is_format_shaped(part),
                "MAP" => is_map_shaped(part),
                "TUPLE" => is_tuple_shaped(part),
                "TUPLEARRAY" => is_tuple_array_shaped(part),
                _ => false,
            },
            None => false,
        },
        _ => false,
    }
}

#[cycle(shaped)]
fn is_map_shaped(value: &Value) -> bool
    ensures { result ≡ is_map true (view value.now) }
{
    let Value::Object(members) = value else {
        return false;
    };
    match two_members(members, "KEY", "VALUE") {
        Some((key, value)) => is_format_shaped(key) && is_format_shaped(value),
        None => false,
    }
}

#[cycle(shaped)]
fn is_tuple_array_shaped(value: &Value) -> bool
    ensures { result ≡ is_tuple_array true (view value.now) }
{
    let Value::Object(members) = value else {
        return false;
    };
    match two_members(members, "CONTENT", "SIZE") {
        Some((content, size)) => is_format_shaped(content) && size.is_number(),
        None => false,
    }
}

#[cycle(shaped)]
fn is_tuple_shaped(value: &Value) -> bool
    ensures { result ≡ is_tuple true (view value.now) }
{
    let Value::Array(parts) = value else {
        return false;
    };
    for part in parts {
        if !is_format_shaped(part) {
            return false;
        }
    }
    true
}

/// Whether the JSON has the shape of a registry.
pub fn is_registry_shaped(value: &Value) -> bool
    ensures { result ≡ is_registry true (view value.now) }
{
    let Value::Object(containers) = value else {
        return false;
    };
    for (_name, container) in containers.iter() {
        if !is_container_shaped(container) {
            return false;
        }
    }
    true
}

fn is_container_shaped(value: &Value) -> bool
    ensures { result ≡ is_container true (view value.now) }
{
    match value {
        Value::String(word) => word.as_str() == "UNITSTRUCT",
        Value::Object(members) => match only_member(members) {
            Some((tag, part)) => match tag {
                "NEWTYPESTRUCT" => is_format_shaped(part),
                "TUPLESTRUCT" => is_tuple_shaped(part),
                "STRUCT" => are_fields_shaped(part),
                "ENUM" => are_variants_shaped(part),
                _ => false,
            },
            None => false,
        },
        _ => false,
    }
}

fn are_fields_shaped(value: &Value) -> bool
    ensures { result ≡ are_fields true (view value.now) }
{
    let Value::Array(fields) = value else {
        return false;
    };
    for field in fields {
        if !is_field_shaped(field) {
            return false;
        }
    }
    true
}

fn is_field_shaped(value: &Value) -> bool
    ensures { result ≡ is_field true (view value.now) }
{
    match value {
        Value::Object(members) => match only_member(members) {
            Some((_name, format)) => is_format_shaped(format),
            None => false,
        },
        _ => false,
    }
}

fn are_variants_shaped(value: &Value) -> bool
    ensures { result ≡ are_variants true (view value.now) }
{
    let Value::Object(variants) = value else {
        return false;
    };
    for (_number, variant) in variants.iter() {
        if !is_variant_shaped(variant) {
            return false;
        }
    }
    true
}

fn is_variant_shaped(value: &Value) -> bool
    ensures { result ≡ is_variant true (view value.now) }
{
    match value {
        Value::Object(members) => match only_member(members) {
            Some((_name, payload)) => is_payload_shaped(payload),
            None => false,
        },
        _ => false,
    }
}

fn is_payload_shaped(value: &Value) -> bool
    ensures { result ≡ is_payload true (view value.now) }
{
    match value {
        Value::String(word) => word.as_str() == "UNIT",
        Value::Object(members) => match only_member(members) {
            Some((tag, part)) => match tag {
                "NEWTYPE" => is_format_shaped(part),
                "TUPLE" => is_tuple_shaped(part),
                "STRUCT" => are_fields_shaped(part),
                _ => false,
            },
            None => false,
        },
        _ => false,
    }
}
