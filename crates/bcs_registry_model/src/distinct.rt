//! Checks that the names of fields and of variants are distinct.
ghost use Rattle.std.specs.Prelude.{◌≡◌, map, IfOk};
ghost use Rattle.std.specs.List.{list_all, list_any, flat_map};
ghost use Rattle.std.specs.Str.{bytes_eq};
ghost use Rattle.bcs_registry_model.specs.View.{field_of, payload_of, choice_of, container_of, entries_of};
ghost use Rattle.bcs_registry_model.specs.WellFormed.{are_distinct, names_differ, container_names, payload_names};

use crate::container::Container;
use crate::containers::Containers;
use crate::format::Format;
use crate::named::Named;
use crate::variant_format::VariantFormat;
use std::alloc::{AllocError, Global};
use std::collections::{BTreeMap, BTreeSet};

/// Up to this number of fields are compared pair by pair, which needs no memory.
const FEW_NAMES: usize = 8;

/// Whether names are distinct in each struct, struct payload and enum.
#[tactic(auto, using(crate::proofs::Inside::name_rules))]
pub fn have_distinct_names(alloc: Global, containers: &Containers) -> Result<bool, AllocError>
    ensures { IfOk result (λ b. b ≡ names_differ (entries_of containers.now.entries.items)) }
{
    let entries = containers.entries();
    for entry in entries {
        if !has_distinct_names(alloc, &entry.1)? {
            return Ok(false);
        }
    }
    Ok(true)
}

#[tactic(auto, using(crate::proofs::Inside::name_rules))]
fn has_distinct_names(alloc: Global, container: &Container) -> Result<bool, AllocError>
    ensures { IfOk result (λ b. b ≡ list_all are_distinct
        (container_names (container_of container.now))) }
{
    match container {
        Container::Struct(fields) => are_distinct_fields(alloc, fields.as_slice()),
        Container::Enum(variants) => {
            Ok(are_distinct_variants(alloc, variants)? && have_distinct_fields(alloc, variants)?)
        }
        _ => Ok(true),
    }
}

// Whether field names are distinct in each struct payload of the variants.
#[tactic(auto, using(crate::proofs::Inside::name_rules))]
fn have_distinct_fields(
    alloc: Global,
    variants: &BTreeMap<u32, Named<VariantFormat>>,
) -> Result<bool, AllocError>
    ensures { IfOk result (λ b. b ≡ list_all are_distinct
        (flat_map (λ c. payload_names c.1.1) (map choice_of variants.now.entries))) }
{
    for variant in variants.values() {
        if !has_distinct_fields(alloc, &variant.value)? {
            return Ok(false);
        }
    }
    Ok(true)
}

#[tactic(auto, using(crate::proofs::Inside::name_rules))]
fn has_distinct_fields(alloc: Global, payload: &VariantFormat) -> Result<bool, AllocError>
    ensures { IfOk result (λ b. b ≡ list_all are_distinct
        (payload_names (payload_of payload.now))) }
{
    match payload {
        VariantFormat::Struct(fields) => are_distinct_fields(alloc, fields.as_slice()),
        _ => Ok(true),
    }
}

fn are_distinct_fields(alloc: Global, fields: &[Named<Format>]) -> Result<bool, AllocError>
    ensures { IfOk result (λ b. b ≡ are_distinct (map (λ f. f.0) (map field_of fields.now))) }
{
    if fields.len() <= FEW_NAMES {
        Ok(differ_pair_by_pair(fields))
    } else {
        differ_by_set(alloc, fields)
    }
}

fn differ_pair_by_pair(fields: &[Named<Format>]) -> bool
    ensures { result ≡ are_distinct (map (λ f. f.0) (map field_of fields.now)) }
{
    for (i, field) in fields.iter().enumerate() {
        if is_among(field.name.as_str(), &fields[i + 1..]) {
            return false;
        }
    }
    true
}

// Whether one of the fields has this name.
fn is_among(name: &str, fields: &[Named<Format>]) -> bool
    ensures { result ≡ list_any (bytes_eq name.now) (map (λ f. f.0) (map field_of fields.now)) }
{
    for field in fields {
        if name == field.name.as_str() {
            return true;
        }
    }
    false
}

fn differ_by_set(alloc: Global, fields: &[Named<Format>]) -> Result<bool, AllocError>
    ensures { IfOk result (λ b. b ≡ are_distinct (map (λ f. f.0) (map field_of fields.now))) }
{
    let mut seen = BTreeSet::new(alloc);
    for field in fields {
        if !seen.insert(field.name.as_str())? {
            return Ok(false);
        }
    }
    Ok(true)
}

fn are_distinct_variants(
    alloc: Global,
    variants: &BTreeMap<u32, Named<VariantFormat>>,
) -> Result<bool, AllocError>
    ensures { IfOk result (λ b. b ≡ are_distinct
        (map (λ c. c.1.0) (map choice_of variants.now.entries))) }
{
    let mut seen = BTreeSet::new(alloc);
    for variant in variants.values() {
        if !seen.insert(variant.name.as_str())? {
            return Ok(false);
        }
    }
    Ok(true)
}
