//! Examples as JSON.
ghost use Rattle.std.specs.Prelude.{IfOk, string_bytes};
ghost use Rattle.bcs_registry_model.specs.View.{shape_of};
ghost use Rattle.bcs_value_model.specs.Tree.{Tree};
ghost use Rattle.bcs_json_spec.specs.Texts.{Denotes};

use crate::example::example_with;
use crate::example_options::ExampleOptions;
use crate::fault::ExampleTextFault;
use bcs_json_printer::texts::show;
use bcs_registry::{Format, Registry};
use bcs_value::Limits;
use std::alloc::Global;

/// Returns the requested example of `format` as compact JSON, for you to fill in.
///
/// `Options`: there is no such example, or it has more nodes than the limits allow, or memory ran out. `TooNested`: its
/// JSON would nest arrays and objects more than 100 deep.
pub fn example_text(
    alloc: Global,
    registry: &Registry,
    format: &Format,
    example_options: &ExampleOptions<'_>,
    limits: &Limits,
) -> Result<String, ExampleTextFault>
    ensures { IfOk result (λ text. (t : Tree) × Denotes registry.now limits.now (shape_of format.now) (string_bytes text) t) }
{
    registry.recall();
    let value = example_with(alloc, registry, format, example_options, limits)?;
    let shown = show(alloc, registry, format, &value)?;
    match shown {
        Some(text) => Ok(text),
        None => Err(ExampleTextFault::TooNested),
    }
}
