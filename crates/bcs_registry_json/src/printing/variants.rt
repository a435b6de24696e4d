//! The JSON of variants and their payloads.
ghost use Rattle.std.specs.Prelude.{◌≡◌, IfOk, map};
ghost use Rattle.bcs_registry_json.specs.Shown.{shown_payload, shown_choices};
ghost use Rattle.bcs_registry_model.specs.View.{payload_of, choice_of};
ghost use Rattle.serde_json.specs.View.{view, members_view};

use super::formats::{field_values, format_value, format_values};
use super::pieces::{single_member, word};
use bcs_registry_model::{Named, VariantFormat};
use itoa::Buffer;
use serde_json::{Map, Value};
use std::alloc::{AllocError, Global};
use std::collections::BTreeMap;

/// The JSON of a payload: a string, or an object with one member.
pub fn payload_value(alloc: Global, payload: &VariantFormat) -> Result<Value, AllocError>
    ensures { IfOk result (λ v. view v ≡ shown_payload (payload_of payload.now)) }
{
    match payload {
        VariantFormat::Unit => word(alloc, "UNIT"),
        VariantFormat::NewType(format) => {
            single_member(alloc, "NEWTYPE", format_value(alloc, format)?)
        }
        VariantFormat::Tuple(formats) => {
            single_member(alloc, "TUPLE", Value::Array(format_values(alloc, formats)?))
        }
        VariantFormat::Struct(fields) => {
            single_member(alloc, "STRUCT", Value::Array(field_values(alloc, fields)?))
        }
    }
}

/// The variants as members. They are sorted by the digits of their numbers, so `"10"` comes before `"2"`.
pub fn variant_members(
    alloc: Global,
    variants: &BTreeMap<u32, Named<VariantFormat>>,
) -> Result<Map<String, Value>, AllocError>
    ensures { IfOk result (λ m.
        members_view m.entries ≡ shown_choices (map choice_of variants.now.entries)) }
{
    let mut members = Map::new(alloc);
    for (number, variant) in variants {
        let payload = payload_value(alloc, &variant.value)?;
        let value = single_member(alloc, variant.name.as_str(), payload)?;
        let mut digits = Buffer::new();
        serde_json::put(&mut members, alloc, digits.format(*number), value)?;
    }
    Ok(members)
}
