//! Prints a registry, or part of it, as JSON.
ghost use Rattle.std.specs.Prelude.{IfOk};
ghost use Rattle.bcs_display_registry.specs.Shows.{WritesSome};

use crate::lines::Selection;
use bcs_registry::Registry;
use bcs_registry_json::printing::registry_value;
use std::alloc::{AllocError, Global};
use std::collections::BTreeSet;

/// The selected containers as JSON on one line, with a line end.
pub(crate) fn json_line(
    alloc: Global,
    registry: &Registry,
    selection: &Selection<'_>,
) -> Result<Vec<u8>, AllocError>
    ensures { IfOk result (λ line. WritesSome line.items) }
{
    match selection {
        Selection::All => whole_line(alloc, registry),
        Selection::Names(_, names) => part_line(alloc, registry, names),
    }
}

fn whole_line(alloc: Global, registry: &Registry) -> Result<Vec<u8>, AllocError>
    ensures { IfOk result (λ line. WritesSome line.items) }
{
    registry.recall();
    let mut text = registry.print(alloc)?;
    text.push('\n')?;
    Ok(text.into_bytes())
}

/// The line for the containers with these names. It is parsed again, which proves that it is a registry without any
/// fact about `names`.
fn part_line(
    alloc: Global,
    registry: &Registry,
    names: &BTreeSet<&str>,
) -> Result<Vec<u8>, AllocError>
    ensures { IfOk result (λ line. WritesSome line.items) }
{
    let mut value = registry_value(alloc, registry.containers())?;
    if let Some(members) = value.as_object_mut() {
        members.retain(|name, _| names.contains(name.as_str()));
    }
    let mut line = value.to_string(alloc)?;
    line.push('\n')?;
    match Registry::read(alloc, line.as_bytes()) {
        Ok(_part) => Ok(line.into_bytes()),
        Err(_) => Err(AllocError),
    }
}
