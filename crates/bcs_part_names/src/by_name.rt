//! Follows a name, as `explain` prints it: `.payload::EntryFunction.args[0]`.

use crate::entries::Entries;
use crate::finding::{field_labelled, variant_labelled};
use crate::following::Follower;
use crate::led::Led;
use crate::name_step::NameStep;
use crate::printing::put_step;
use crate::reading::read_name;
use bcs_decode_parts::inside::Inside;
use bcs_decode_parts::{PathFault, PathStep};
use bcs_part_labels::LONGEST_KEY;
use bcs_registry::{Format, Named, Registry, VariantFormat};
use bcs_value::Limits;
use std::alloc::{AllocError, Global};
use std::collections::BTreeMap;

/// Returns where the name leads, if the bytes begin with a value of the format. A text that isn't a name leads nowhere.
pub fn path_of_name<'r, 'a>(
    alloc: Global,
    registry: &'r Registry,
    format: &'r Format,
    limits: &Limits,
    bytes: &'a [u8],
    name: &str,
) -> Result<Led<'r, 'a>, AllocError> {
    let mut follower = Follower::start(alloc, registry, format, limits, bytes);
    let steps = match read_name(alloc, name) {
        Ok(steps) => steps,
        Err(PathFault::BadPath) => return follower.stopped(
            0,
            String::from_str(alloc, name)?,
            false,
        ),
        Err(PathFault::OutOfMemory) => return Err(AllocError),
    };
    for (index, step) in steps.iter().enumerate() {
        follower.enter_containers()?;
        if !take_named(alloc, &mut follower, step)? {
            return follower.stopped(index, text_of(alloc, step)?, false);
        }
    }
    Ok(follower.arrived())
}

// The text of a step. It is UTF-8, since a name is cut only at ASCII characters. No clause says so.
fn text_of(alloc: Global, step: &NameStep<'_>) -> Result<String, AllocError> {
    let mut text = Vec::new(alloc);
    put_step(step, &mut text)?;
    match String::from_utf8(text) {
        Ok(text) => Ok(text),
        Err(_) => Ok(String::new(alloc)),
    }
}

// Takes a step, and returns whether it leads anywhere.
fn take_named(
    alloc: Global,
    follower: &mut Follower<'_, '_>,
    name: &NameStep<'_>,
) -> Result<bool, AllocError> {
    match step_of(alloc, follower, name)? {
        Some(step) => follower.take(step),
        None => Ok(false),
    }
}

// The step of PATH for a step of a name. `None`: it leads nowhere from here.
fn step_of(
    alloc: Global,
    follower: &Follower<'_, '_>,
    name: &NameStep<'_>,
) -> Result<Option<PathStep>, AllocError> {
    match (follower.inside(), name) {
        (Inside::Fields(fields), NameStep::Field(label)) => field_step(alloc, fields, label),
        (Inside::Variants(variants), NameStep::Variant(label)) => {
            variant_step(alloc, variants, follower.at().ahead.bytes, label)
        }
        (Inside::Option(_), NameStep::Inside) => Ok(Some(PathStep::Inner)),
        (Inside::List(_) | Inside::Array(_, _) | Inside::Tuple(_), NameStep::Item(index)) => {
            Ok(Some(PathStep::Item(*index)))
        }
        (Inside::Map(_, _), NameStep::Key(bytes)) => short_key_step(alloc, bytes.as_slice()),
        (Inside::Map(key, content), NameStep::EntryValue(number)) => {
            let entries = Entries {
                registry: follower.registry(),
                key,
                content,
                ahead: follower.at().ahead,
            };
            long_key_step(alloc, &entries, *number)
        }
        _ => Ok(None),
    }
}

fn field_step(
    alloc: Global,
    fields: &[Named<Format>],
    label: &[u8],
) -> Result<Option<PathStep>, AllocError> {
    match field_labelled(alloc, fields, label)? {
        Some(index) => Ok(Some(PathStep::Item(index))),
        None => Ok(None),
    }
}

// Only the variant that is there can be entered.
fn variant_step(
    alloc: Global,
    variants: &BTreeMap<u32, Named<VariantFormat>>,
    bytes: &[u8],
    label: &[u8],
) -> Result<Option<PathStep>, AllocError> {
    if variant_labelled(alloc, variants, bytes, label)? {
        Ok(Some(PathStep::Inner))
    } else {
        Ok(None)
    }
}

// A long key isn't in a name, so that each part has only one name.
fn short_key_step(alloc: Global, key: &[u8]) -> Result<Option<PathStep>, AllocError> {
    if key.len() > LONGEST_KEY {
        return Ok(None);
    }
    Ok(Some(PathStep::Key(Vec::from_slice(alloc, key)?)))
}

// And a name has the number of an entry only if its key is long.
fn long_key_step(
    alloc: Global,
    entries: &Entries<'_, '_>,
    number: u64,
) -> Result<Option<PathStep>, AllocError> {
    match entries.key_at(number) {
        Some(key) if key.len() > LONGEST_KEY => {
            Ok(Some(PathStep::Key(Vec::from_slice(alloc, key)?)))
        }
        _ => Ok(None),
    }
}
