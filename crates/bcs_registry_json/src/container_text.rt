//! Reads containers from JSON.
ghost use Rattle.std.specs.Prelude.{IfErr, IfOk, map, string_bytes};
ghost use Rattle.serde_json.specs.View.{view};
ghost use Rattle.bcs_registry_json.specs.Parts.{IsContainerText, IsFaultBy, IsFieldText, IsFieldsText, IsPayloadText, IsVariantText, IsVariantsText};
ghost use Rattle.bcs_registry_json.specs.Shaped.{are_fields, are_variants, is_container, is_field, is_payload, is_registry, is_variant};
ghost use Rattle.bcs_registry_json.specs.Text.{IsRegistryText};
ghost use Rattle.bcs_registry_model.specs.View.{choice_of, container_of, entries_of, field_of, payload_of};

use crate::format_text::{format_from, formats_from};
use crate::members::only_member;
use crate::variant_number::variant_number;
use bcs_registry_model::{Container, Format, Named, RegistryFault, VariantFormat};
use serde_json::Value;
use std::alloc::Global;
use std::collections::BTreeMap;

/// Reads the containers of a registry, by name. A fault that it returns occurs in the JSON, but a lesser one may
/// follow.
pub fn containers_from(
    alloc: Global,
    value: &Value,
) -> Result<BTreeMap<String, Container>, RegistryFault>
    ensures ok { IfOk result (λ m. IsRegistryText (view value.now) (entries_of m.entries)) }
    ensures fault { IfErr result (IsFaultBy (λ loose. is_registry loose (view value.now))) }
{
    let Value::Object(members) = value else {
        return Err(RegistryFault::BadShape);
    };
    let mut containers = BTreeMap::new(alloc);
    for (name, part) in members.iter() {
        let container = container_from(alloc, part)?;
        drop(containers.insert(name.clone()?, container)?);
    }
    Ok(containers)
}

pub(crate) fn container_from(alloc: Global, value: &Value) -> Result<Container, RegistryFault>
    ensures ok { IfOk result (λ c. IsContainerText (view value.now) (container_of c)) }
    ensures fault { IfErr result (IsFaultBy (λ loose. is_container loose (view value.now))) }
{
    match value {
        Value::String(word) => if word.as_str() == "UNITSTRUCT" {
            Ok(Container::UnitStruct)
        } else {
            Err(RegistryFault::BadShape)
        },
        Value::Object(members) => match only_member(members) {
            Some((tag, part)) => match tag {
                "NEWTYPESTRUCT" => Ok(Container::NewTypeStruct(format_from(alloc, part)?)),
                "TUPLESTRUCT" => Ok(Container::TupleStruct(formats_from(alloc, part)?)),
                "STRUCT" => Ok(Container::Struct(fields_from(alloc, part)?)),
                "ENUM" => Ok(Container::Enum(variants_from(alloc, part)?)),
                _ => Err(RegistryFault::BadShape),
            },
            None => Err(RegistryFault::BadShape),
        },
        _ => Err(RegistryFault::BadShape),
    }
}

fn fields_from(alloc: Global, value: &Value) -> Result<Vec<Named<Format>>, RegistryFault>
    ensures ok { IfOk result (λ fs. IsFieldsText (view value.now) (map field_of fs.items)) }
    ensures fault { IfErr result (IsFaultBy (λ loose. are_fields loose (view value.now))) }
{
    let Value::Array(parts) = value else {
        return Err(RegistryFault::BadShape);
    };
    let mut fields = Vec::new(alloc);
    for part in parts {
        fields.push(field_from(alloc, part)?)?;
    }
    Ok(fields)
}

fn field_from(alloc: Global, value: &Value) -> Result<Named<Format>, RegistryFault>
    ensures ok { IfOk result (λ f. IsFieldText (view value.now) (field_of f)) }
    ensures fault { IfErr result (IsFaultBy (λ loose. is_field loose (view value.now))) }
{
    let Value::Object(members) = value else {
        return Err(RegistryFault::BadShape);
    };
    let Some((name, part)) = only_member(members) else {
        return Err(RegistryFault::BadShape);
    };
    let value = format_from(alloc, part)?;
    let name = String::from_str(alloc, name)?;
    Ok(Named { name, value })
}

/// Reads the variants of an enum, by number.
fn variants_from(
    alloc: Global,
    value: &Value,
) -> Result<BTreeMap<u32, Named<VariantFormat>>, RegistryFault>
    ensures ok { IfOk result (λ m. IsVariantsText (view value.now) (map choice_of m.entries)) }
    ensures fault { IfErr result (IsFaultBy (λ loose. are_variants loose (view value.now))) }
{
    let Value::Object(members) = value else {
        return Err(RegistryFault::BadShape);
    };
    let mut variants = BTreeMap::new(alloc);
    for (digits, part) in members.iter() {
        let Some(number) = variant_number(digits.as_str()) else {
            return Err(RegistryFault::BadNumber);
        };
        let variant = variant_from(alloc, part)?;
        drop(variants.insert(number, variant)?);
    }
    Ok(variants)
}

fn variant_from(alloc: Global, value: &Value) -> Result<Named<VariantFormat>, RegistryFault>
    ensures ok { IfOk result (λ v. IsVariantText (view value.now) (string_bytes v.name, payload_of v.value)) }
    ensures fault { IfErr result (IsFaultBy (λ loose. is_variant loose (view value.now))) }
{
    let Value::Object(members) = value else {
        return Err(RegistryFault::BadShape);
    };
    let Some((name, part)) = only_member(members) else {
        return Err(RegistryFault::BadShape);
    };
    let value = payload_from(alloc, part)?;
    let name = String::from_str(alloc, name)?;
    Ok(Named { name, value })
}

fn payload_from(alloc: Global, value: &Value) -> Result<VariantFormat, RegistryFault>
    ensures ok { IfOk result (λ p. IsPayloadText (view value.now) (payload_of p)) }
    ensures fault { IfErr result (IsFaultBy (λ loose. is_payload loose (view value.now))) }
{
    match value {
        Value::String(word) => if word.as_str() == "UNIT" {
            Ok(VariantFormat::Unit)
        } else {
            Err(RegistryFault::BadShape)
        },
        Value::Object(members) => match only_member(members) {
            Some((tag, part)) => match tag {
                "NEWTYPE" => Ok(VariantFormat::NewType(format_from(alloc, part)?)),
                "TUPLE" => Ok(VariantFormat::Tuple(formats_from(alloc, part)?)),
                "STRUCT" => Ok(VariantFormat::Struct(fields_from(alloc, part)?)),
                _ => Err(RegistryFault::BadShape),
            },
            None => Err(RegistryFault::BadShape),
        },
        _ => Err(RegistryFault::BadShape),
    }
}
