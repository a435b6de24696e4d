//! Prints the pieces of one value.
ghost use Rattle.std.specs.Prelude.{IfOk};
ghost use Rattle.bcs_registry_model.specs.View.{shape_of};
ghost use Rattle.bcs_registry_model.specs.WellFormed.{Admits};
ghost use Rattle.bcs_display_pieces.specs.EndsAt.{EndsAt};

use crate::above::Above;
use crate::call_check::check_calls;
use crate::stopping::stop_of;
use crate::table::Table;
use crate::walk::{Scene, Walk};
use bcs_explain::Stop;
use bcs_registry::Format;
use bcs_value::Limits;
use std::alloc::{AllocError, Global};

/// The pieces of a value, and the stop if the bytes aren't one.
pub(crate) fn walk_value(
    alloc: Global,
    scene: Scene<'_>,
    above: Above,
    format: &Format,
    limits: &Limits,
    bytes: &[u8],
) -> Result<(Walk, Option<Stop>), AllocError>
    requires admitted { Admits scene.registry.now (shape_of format.now) }
    ensures { IfOk result (λ walked. EndsAt scene.entry.registry.now limits.now (shape_of format.now) bytes.now walked.1) }
{
    let checked = check_calls(alloc, scene, &above, format, limits, bytes)?;
    let mut table = Table::new(alloc, scene, above, checked, limits.depth(), limits.nodes())?;
    let stop = stop_of(scene.registry, format, limits, bytes, &mut table);
    Ok((table.finish()?, stop))
}
