//! The JSON of a registry.
ghost use Rattle.std.specs.Prelude.{◌≡◌, IfOk};
ghost use Rattle.bcs_registry_json.specs.Shown.{shown_registry};
ghost use Rattle.bcs_registry_model.specs.View.{entries_of};
ghost use Rattle.serde_json.specs.View.{view};

mod containers;
mod formats;
mod pieces;
mod variants;

use bcs_registry_model::containers::Containers;
use containers::container_value;
use serde_json::{Map, Value};
use std::alloc::{AllocError, Global};

/// An object with a member for each container, by name.
pub fn registry_value(alloc: Global, containers: &Containers) -> Result<Value, AllocError>
    ensures { IfOk result (λ v. view v ≡ shown_registry (entries_of containers.now.entries.items)) }
{
    let mut members = Map::new(alloc);
    let entries = containers.entries();
    for (name, container) in entries {
        let value = container_value(alloc, container)?;
        serde_json::put(&mut members, alloc, name.as_str(), value)?;
    }
    Ok(Value::Object(members))
}
