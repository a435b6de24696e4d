//! Prints a registry, or part of it.
ghost use Rattle.std.specs.Prelude.{◌≡◌, IfOk, IfSome};
ghost use Rattle.bcs_display_registry.specs.Shows.{WritesSome};
ghost use Rattle.bcs_display_registry.specs.declared.show.RegistryForm.TheVariants.{Json};

use crate::as_json::json_line;
use crate::lines::{Selection, registry_lines};
use crate::rounds::container_sizes;
use crate::uses::standing;
use bcs_registry::Registry;
use bcs_value::Limits;
use std::alloc::{AllocError, Global};

/// The output form of a registry.
#[derive(Clone, Copy, Debug, PartialEq, Eq)]
pub enum RegistryForm {
    /// Readable lines: each container with its sizes and its formats, fields or variants.
    Lines,
    /// The JSON of serde-reflection, on one line.
    Json,
}

/// Prints the whole registry or, given a name, that container and then all containers it depends on. JSON has all of them
/// in the order of their names. Returns `None` if no container has the name. Fails only if memory runs out.
pub fn show_registry(
    alloc: Global,
    registry: &Registry,
    name: Option<&str>,
    form: RegistryForm,
) -> Result<Option<Vec<u8>>, AllocError>
    ensures json { IfOk result (λ shown. IfSome shown (λ text. form ≡ Json → WritesSome text.items)) }
{
    let selection = match name {
        None => Selection::All,
        Some(name) if registry.container(name).is_none() => return Ok(None),
        Some(name) => Selection::Names(name, standing(alloc, registry.containers(), name)?),
    };
    Ok(Some(selected_text(alloc, registry, &selection, form)?))
}

/// Prints the selected containers. As lines, the sizes are those of values within the standard depth limit.
fn selected_text(
    alloc: Global,
    registry: &Registry,
    selection: &Selection<'_>,
    form: RegistryForm,
) -> Result<Vec<u8>, AllocError>
    ensures { IfOk result (λ text. form ≡ Json → WritesSome text.items) }
{
    match form {
        RegistryForm::Lines => {
            let containers = registry.containers();
            let sizes = container_sizes(alloc, containers, Limits::standard().depth())?;
            registry_lines(alloc, containers, selection, &sizes)
        }
        RegistryForm::Json => json_line(alloc, registry, selection),
    }
}
