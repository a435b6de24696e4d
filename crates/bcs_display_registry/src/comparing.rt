//! Compares two registries.

use crate::change::{Change, Difference};
use bcs_registry_model::containers::Containers;
use bcs_registry_model::equality::{is_same_struct, is_same_variant};
use bcs_registry_model::{Container, Named, VariantFormat};
use std::alloc::{AllocError, Global};
use std::collections::{BTreeMap, BTreeSet};

/// The variants of an enum by number.
type Variants = BTreeMap<u32, Named<VariantFormat>>;

/// Returns all differences between the containers of two registries, ordered by container name and, within an enum, by
/// variant number. Fails only if memory runs out.
pub fn differences<'a>(
    alloc: Global,
    older: &'a Containers,
    newer: &'a Containers,
) -> Result<Vec<Difference<'a>>, AllocError> {
    let mut found = Vec::new(alloc);
    for name in &names_of_both(alloc, older, newer)? {
        let container = *name;
        let change = match (older.get(container), newer.get(container)) {
            (Some(Container::Enum(older)), Some(Container::Enum(newer))) => {
                push_variant_changes(alloc, container, older, newer, &mut found)?;
                continue;
            }
            (Some(older), Some(newer)) if is_same_struct(older, newer) => continue,
            (Some(older), Some(newer)) => Change::Changed { older, newer },
            (Some(older), None) => Change::Missing { older },
            (None, Some(newer)) => Change::ContainerAdded { newer },
            (None, None) => continue,
        };
        found.push(Difference { container, change })?;
    }
    Ok(found)
}

/// Appends the differences between two enums with the same name.
fn push_variant_changes<'a>(
    alloc: Global,
    container: &'a str,
    older: &'a Variants,
    newer: &'a Variants,
    found: &mut Vec<Difference<'a>>,
) -> Result<(), AllocError> {
    for number in &keys_of_both(alloc, older, newer)? {
        let number = **number;
        let change = match (older.get(&number), newer.get(&number)) {
            (Some(older), Some(newer)) if is_same_variant(older, newer) => continue,
            (Some(older), Some(newer)) => Change::VariantChanged {
                number,
                older,
                newer,
            },
            (Some(older), None) => Change::VariantMissing { number, older },
            (None, Some(newer)) => Change::VariantAdded { number, newer },
            (None, None) => continue,
        };
        found.push(Difference { container, change })?;
    }
    Ok(())
}

/// The names of the containers of both registries.
fn names_of_both<'a>(
    alloc: Global,
    older: &'a Containers,
    newer: &'a Containers,
) -> Result<BTreeSet<&'a str>, AllocError> {
    let mut names = BTreeSet::new(alloc);
    for (name, _) in older.entries() {
        let _ = names.insert(name.as_str())?;
    }
    for (name, _) in newer.entries() {
        let _ = names.insert(name.as_str())?;
    }
    Ok(names)
}

/// The keys of both maps.
fn keys_of_both<'a, K: Ord, V>(
    alloc: Global,
    older: &'a BTreeMap<K, V>,
    newer: &'a BTreeMap<K, V>,
) -> Result<BTreeSet<&'a K>, AllocError> {
    let mut keys = BTreeSet::new(alloc);
    for key in older.keys().chain(newer.keys()) {
        let _ = keys.insert(key)?;
    }
    Ok(keys)
}
