//! Finds the containers that an example may open.

use crate::part::Part;
use bcs_registry::{Container, Registry};
use bcs_registry_model::mentions::{
    Mentions, names_in, push_field_names, push_names, push_row_names,
};
use std::alloc::{AllocError, Global};
use std::collections::BTreeSet;

/// A container and its name, so that it is looked up once.
#[derive(Clone, Copy)]
pub(crate) struct Entry<'r> {
    pub(crate) name: &'r str,
    pub(crate) container: &'r Container,
}

/// All containers of the registry.
pub(crate) fn all_containers(
    alloc: Global,
    registry: &Registry,
) -> Result<Vec<Entry<'_>>, AllocError> {
    let mut entries = Vec::with_capacity(alloc, registry.len())?;
    for (name, container) in registry.containers().entries() {
        let name = name.as_str();
        entries.push(Entry { name, container })?;
    }
    Ok(entries)
}

/// The containers that every value of the part must contain, and those that they mention in turn. Mentions inside
/// options, lists and maps don't count.
pub(crate) fn needed_containers<'r>(
    alloc: Global,
    registry: &'r Registry,
    part: Part<'r>,
) -> Result<Vec<Entry<'r>>, AllocError> {
    let mut needed = Needed {
        registry,
        in_order: Vec::new(alloc),
        seen: BTreeSet::new(alloc),
    };
    note_names(&names_in_part(alloc, part)?, &mut needed)?;
    for place in 0..registry.len() {
        match needed.in_order.get(place) {
            Some(entry) => {
                let names = names_in(alloc, entry.container, Mentions::Needed)?;
                note_names(&names, &mut needed)?;
            }
            None => break,
        }
    }
    Ok(needed.in_order)
}

/// Containers of the registry without duplicates, in the order in which they were found.
#[derive(Drop)]
struct Needed<'r> {
    registry: &'r Registry,
    in_order: Vec<Entry<'r>>,
    seen: BTreeSet<&'r str>,
}

fn note_names<'r>(names: &[&'r str], needed: &mut Needed<'r>) -> Result<(), AllocError> {
    for name in names {
        if needed.seen.insert(*name)?
            && let Some(container) = needed.registry.container(*name)
        {
            needed.in_order.push(Entry {
                name: *name,
                container,
            })?;
        }
    }
    Ok(())
}

fn names_in_part<'r>(alloc: Global, part: Part<'r>) -> Result<Vec<&'r str>, AllocError> {
    let mut names = Vec::new(alloc);
    match part {
        Part::Nothing => {}
        Part::Format(format) => push_names(format, Mentions::Needed, &mut names)?,
        Part::Row(formats) => push_row_names(formats, Mentions::Needed, &mut names)?,
        Part::Fields(fields) => push_field_names(fields, Mentions::Needed, &mut names)?,
    }
    Ok(names)
}
