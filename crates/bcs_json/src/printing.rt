//! JSON documents of values.
ghost use Rattle.std.specs.Prelude.{◌≡◌, ◌≢◌, IfErr, IfOk, OnOk, string_bytes};
ghost use Rattle.bcs_encode_spec.specs.Refused.{IsSoundBesidesKeys};
ghost use Rattle.bcs_encode_spec.specs.Sound.{IsSound};
ghost use Rattle.bcs_registry_model.specs.View.{shape_of};
ghost use Rattle.bcs_value_model.specs.View.{tree_of};
ghost use Rattle.bcs_json.specs.Printing.{Prints, PrintRefuses};
ghost use Rattle.bcs_json.specs.declared.print_fault.PrintFault.TheVariants.{OutOfMemory};

use crate::print_fault::PrintFault;
use bcs_encode::canonicalise;
use bcs_json_printer::texts::show;
use bcs_registry::{Format, Registry};
use bcs_value::{Limits, Value};
use std::alloc::Global;

/// The JSON document of a sound value: the compact JSON of its canonical form.
///
/// It fails like `encode`. `TooNested`: the value is sound, and the arrays and objects of the document would nest more
/// than 100 deep.
pub fn print_value(
    alloc: Global,
    registry: &Registry,
    format: &Format,
    limits: &Limits,
    value: &Value,
) -> Result<String, PrintFault>
    ensures sound { OnOk result (IsSound registry.now limits.now (shape_of format.now) (tree_of value.now)) }
    ensures prints { IfOk result (λ s. Prints registry.now limits.now (shape_of format.now) (tree_of value.now) (string_bytes s)) }
    ensures fault { IfErr result (λ e. e ≢ OutOfMemory → PrintRefuses registry.now limits.now (shape_of format.now) (tree_of value.now) e) }
    ensures memory { IfErr result (λ e. e ≡ OutOfMemory → IsSoundBesidesKeys registry.now limits.now (shape_of format.now) (tree_of value.now)) }
{
    registry.recall();
    let form = canonicalise(alloc, registry, format, limits, value)?;
    let shown = show(alloc, registry, format, &form)?;
    match shown {
        Some(text) => Ok(text),
        None => Err(PrintFault::TooNested),
    }
}
