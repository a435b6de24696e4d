//! The format that a text names.
ghost use Rattle.std.specs.Prelude.{IfOk};
ghost use Rattle.bcs_registry_model.specs.View.{shape_of};
ghost use Rattle.bcs_registry_model.specs.WellFormed.{Admits};

use bcs_registry::{Format, Registry, RegistryFault};
use std::alloc::Global;

/// The format that a text names: as JSON, or as a container's name.
pub(crate) fn read_format(
    alloc: Global,
    registry: &Registry,
    text: &str,
) -> Result<Format, RegistryFault>
    ensures { IfOk result (λ format. Admits registry.now (shape_of format)) }
{
    if matches!(text.as_bytes().first(), Some(b'{' | b'"')) {
        return registry.read_format(alloc, text.as_bytes());
    }
    let format = Format::TypeName(String::from_str(alloc, text)?);
    if registry.admits(&format) {
        Ok(format)
    } else {
        Err(RegistryFault::UnknownName)
    }
}
