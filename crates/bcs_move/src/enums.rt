//! The JSON of enums of Sui.

use crate::fields::{Given, put_fields};
use crate::maker::Maker;
use bcs_move_types::members::{no_name, object_in, unexpected};
use bcs_move_types::place::{Place, member};
use bcs_move_types::refusal::{MoveFault, MoveRefusalName, refusal};
use bcs_move_types::words::is_name;
use serde_json::{Map, Value};
use std::alloc::{AllocError, Global};
use std::collections::{BTreeMap, BTreeSet};

/// Above, the number of a variant would have two bytes, which Sui doesn't allow.
const VARIANTS: usize = 127;

/// Appends the container of an enum. Its variants have the numbers that `variantDeclarationOrder` gives them.
pub(crate) fn put_enum(
    alloc: Global,
    maker: &mut Maker<'_, '_>,
    given: &Given<'_>,
    value: &Value,
    place: &Place<'_>,
    out: &mut String,
) -> Result<(), MoveFault> {
    let variants = object_in(alloc, value, "variants", place)?;
    let names = names_in_order(alloc, value, variants, place)?;
    let place = member(place, "variants");
    out.push_str("{\"ENUM\":")?;
    for (index, (number, name)) in numbered(alloc, &names)?.iter().enumerate() {
        out.push(if index == 0 { '{' } else { ',' })?;
        let number = number.as_str();
        let start = format!(in alloc; "\"{number}\":")?;
        out.push_str(start.as_str())?;
        let fields = variants.get(*name);
        put_variant(alloc, maker, given, fields, &member(&place, *name), out)?;
    }
    Ok(out.push_str("}}")?)
}

/// The names by their numbers, in the order in which registries are printed: 10 comes before 2.
fn numbered<'v>(alloc: Global, names: &[&'v str]) -> Result<BTreeMap<String, &'v str>, AllocError> {
    let mut numbered = BTreeMap::new(alloc);
    for (number, name) in names.iter().enumerate() {
        drop(numbered.insert(format!(in alloc; "{number}")?, *name)?);
    }
    Ok(numbered)
}

/// The names of the variants, by their numbers.
fn names_in_order<'v>(
    alloc: Global,
    value: &'v Value,
    variants: &'v Map<String, Value>,
    place: &Place<'_>,
) -> Result<Vec<&'v str>, MoveFault> {
    let mut names = Vec::new(alloc);
    match value.get("variantDeclarationOrder") {
        Some(Value::Array(values)) => {
            for value in values {
                names.push(value.as_str().unwrap_or(""))?;
            }
        }
        None | Some(Value::Null) if variants.len() == 1 => {
            for (name, _) in variants.iter() {
                names.push(name.as_str())?;
            }
        }
        None | Some(Value::Null) => {
            let message =
                "there is no variantDeclarationOrder, without which the variants have no numbers: ask a newer node, or write the container by hand";
            return Err(refusal(alloc, MoveRefusalName::UnknownVariants, place, message));
        }
        found => {
            let place = member(place, "variantDeclarationOrder");
            return Err(unexpected(alloc, "an array", found, &place));
        }
    }
    require_all(alloc, &names, variants, place)?;
    Ok(names)
}

/// Refuses names that aren't those of all variants.
fn require_all(
    alloc: Global,
    names: &[&str],
    variants: &Map<String, Value>,
    place: &Place<'_>,
) -> Result<(), MoveFault> {
    if names.is_empty() || names.len() > VARIANTS {
        let place = member(place, "variants");
        let message = "an enum of Move has 1 to 127 variants";
        return Err(refusal(alloc, MoveRefusalName::UnknownVariants, &place, message));
    }
    let mut found = BTreeSet::new(alloc);
    for name in names {
        if variants.contains_key(*name) {
            drop(found.insert(*name)?);
        }
    }
    if found.len() == names.len() && names.len() == variants.len() {
        return Ok(());
    }
    let place = member(place, "variantDeclarationOrder");
    let message = "these aren't the names of all variants, each of them once";
    Err(refusal(alloc, MoveRefusalName::UnknownVariants, &place, message))
}

/// Appends a variant. Its place ends in its name.
fn put_variant(
    alloc: Global,
    maker: &mut Maker<'_, '_>,
    given: &Given<'_>,
    fields: Option<&Value>,
    place: &Place<'_>,
    out: &mut String,
) -> Result<(), MoveFault> {
    let Place::Member(_, name) = place else {
        return Ok(());
    };
    if !is_name(*name) {
        return Err(no_name(alloc, None, place));
    }
    let Some(Value::Array(values)) = fields else {
        return Err(unexpected(alloc, "an array", fields, place));
    };
    out.push_str("{\"")?;
    out.push_str(*name)?;
    if values.is_empty() {
        return Ok(out.push_str("\":\"UNIT\"}")?);
    }
    out.push_str("\":{\"STRUCT\":")?;
    put_fields(alloc, maker, given, values, place, out)?;
    Ok(out.push_str("}}")?)
}
