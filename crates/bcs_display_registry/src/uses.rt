//! Which containers use which.

use bcs_registry_model::Container;
use bcs_registry_model::containers::Containers;
use bcs_registry_model::mentions::{Mentions, names_in};
use std::alloc::{AllocError, Global};
use std::collections::BTreeSet;

/// Returns the names mentioned in the formats of containers with other names. Fails only if memory runs out.
pub(crate) fn used_by_others(
    alloc: Global,
    containers: &Containers,
) -> Result<BTreeSet<&str>, AllocError> {
    let mut used = BTreeSet::new(alloc);
    for (user, container) in containers.entries() {
        put_used(alloc, user.as_str(), container, &mut used)?;
    }
    Ok(used)
}

fn put_used<'a>(
    alloc: Global,
    user: &str,
    container: &'a Container,
    used: &mut BTreeSet<&'a str>,
) -> Result<(), AllocError> {
    for name in &names_in(alloc, container, Mentions::All)? {
        if *name != user {
            let _ = used.insert(*name)?;
        }
    }
    Ok(())
}

/// Returns the names of the containers that the container `name` depends on, directly or through others, itself
/// included. The set is empty if no container has this name. Fails only if memory runs out.
pub fn standing<'a>(
    alloc: Global,
    containers: &'a Containers,
    name: &str,
) -> Result<BTreeSet<&'a str>, AllocError> {
    let mut reached = BTreeSet::new(alloc);
    let mut open = Vec::new(alloc);
    for (word, _) in containers.entries() {
        if word.as_str() == name {
            let _ = reached.insert(word.as_str())?;
            open.push(word.as_str())?;
        }
    }
    // Each container is opened at most once, so this many rounds suffice.
    for _opened in 0..containers.len() {
        let Some(name) = open.pop() else {
            break;
        };
        open_container(alloc, containers, name, &mut reached, &mut open)?;
    }
    Ok(reached)
}

/// Adds the containers that this container uses, and queues the new ones.
fn open_container<'a>(
    alloc: Global,
    containers: &'a Containers,
    name: &str,
    reached: &mut BTreeSet<&'a str>,
    open: &mut Vec<&'a str>,
) -> Result<(), AllocError> {
    let Some(container) = containers.get(name) else {
        return Ok(());
    };
    for used in &names_in(alloc, container, Mentions::All)? {
        if containers.contains_key(*used) && reached.insert(*used)? {
            open.push(*used)?;
        }
    }
    Ok(())
}
