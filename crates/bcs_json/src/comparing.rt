//! Whether two JSON documents represent equal values.
ghost use Rattle.std.specs.Prelude.{◌≡◌, ◌≢◌, ◌⊎◌, IfErr, IfOk};
ghost use Rattle.bcs_registry_model.specs.View.{shape_of};
ghost use Rattle.bcs_json_spec.specs.Headline.{Compares};
ghost use Rattle.bcs_json_spec.specs.Texts.{Denotes, RefusesText};
ghost use Rattle.bcs_value_model.specs.Tree.{Tree};
ghost use Rattle.bcs_json_spec.specs.declared.json_fault.JsonFault.TheVariants.{OutOfMemory};

use crate::encoding::to_bcs;
use bcs_json_spec::JsonFault;
use bcs_registry::{Format, Registry};
use bcs_value::Limits;
use std::alloc::Global;

/// Whether two JSON documents represent equal values (maps are finite maps). That is the case exactly if their
/// encodings are equal.
///
/// Each is refused like in [`read_value`](crate::read_value). If the first is refused, the second isn't read.
pub fn compare(
    alloc: Global,
    registry: &Registry,
    format: &Format,
    limits: &Limits,
    first: &[u8],
    second: &[u8],
) -> Result<bool, JsonFault>
    ensures compares { IfOk result (λ answer. Compares registry.now limits.now (shape_of format.now) first.now second.now answer) }
    ensures fault { IfErr result (λ e. e ≢ OutOfMemory
        → RefusesText registry.now limits.now (shape_of format.now) first.now e
        ⊎ (((t : Tree) × Denotes registry.now limits.now (shape_of format.now) first.now t)
        × RefusesText registry.now limits.now (shape_of format.now) second.now e)) }
    ensures memory { IfErr result (λ e. (t u : Tree) → Denotes registry.now limits.now (shape_of format.now) first.now t
        → Denotes registry.now limits.now (shape_of format.now) second.now u → e ≡ OutOfMemory) }
{
    let one = to_bcs(alloc, registry, format, limits, first)?;
    let other = to_bcs(alloc, registry, format, limits, second)?;
    Ok(one == other)
}
