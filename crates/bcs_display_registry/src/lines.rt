//! Prints a registry as lines.

use crate::block::put_container;
use crate::header::put_header;
use crate::sizes::Sizes;
use crate::uses::used_by_others;
use bcs_registry_model::Container;
use bcs_registry_model::containers::Containers;
use std::alloc::{AllocError, Global};
use std::collections::{BTreeMap, BTreeSet};

/// The containers to show.
#[derive(Drop)]
pub enum Selection<'a> {
    /// All containers.
    All,
    /// The container with this name first, and then the other ones with these names, as returned by `standing`.
    Names(&'a str, BTreeSet<&'a str>),
}

impl<'a> Selection<'a> {
    /// The name of the container that is shown before the others, if there is one.
    pub fn first(&self) -> Option<&'a str> {
        match self {
            Selection::All => None,
            Selection::Names(first, _) => Some(first),
        }
    }

    /// Whether the container with this name is shown after the first.
    pub fn has_further(&self, name: &str) -> bool {
        match self {
            Selection::All => true,
            Selection::Names(first, names) => name != *first && names.contains(name),
        }
    }
}

/// Returns the lines of the selected containers, those after the first in the order of their names, with those of their
/// sizes that `sizes` has. "Used by no other" takes all containers into account, even those not selected. Fails only if
/// memory runs out.
pub fn registry_lines(
    alloc: Global,
    containers: &Containers,
    selection: &Selection<'_>,
    sizes: &BTreeMap<&str, Sizes>,
) -> Result<Vec<u8>, AllocError> {
    let used = used_by_others(alloc, containers)?;
    let mut lines = Vec::new(alloc);
    if let Some(name) = selection.first() {
        if let Some(container) = containers.get(name) {
            let is_used = used.contains(name);
            put_lines(name, container, sizes.get(name), is_used, &mut lines)?;
        }
    }
    for (name, container) in containers.entries() {
        let name = name.as_str();
        if selection.has_further(name) {
            let is_used = used.contains(name);
            put_lines(name, container, sizes.get(name), is_used, &mut lines)?;
        }
    }
    Ok(lines)
}

fn put_lines(
    name: &str,
    container: &Container,
    sizes: Option<&Sizes>,
    is_used: bool,
    out: &mut Vec<u8>,
) -> Result<(), AllocError> {
    put_header(name, container, sizes, is_used, out)?;
    put_container(container, out)
}
