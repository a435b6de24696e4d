//! JSON Pointers.
ghost use Rattle.std.specs.Prelude.{◌≡◌, ◌++◌, IfOk, OnOk, map};
ghost use Rattle.bcs_json_spec.specs.Place.{pointer_step_of};
ghost use Rattle.bcs_display_errors.specs.Pointers.{pointer, pointer_step};

use bcs_display_mistakes::put_marked;
use bcs_display_text::columns::put_decimal;
use bcs_json_spec::JsonStep;
use std::alloc::{AllocError, Global};

/// The JSON Pointer with these steps.
pub fn pointer_of(alloc: Global, steps: &[JsonStep]) -> Result<Vec<u8>, AllocError>
    ensures { IfOk result (λ text. text.items ≡ pointer (map pointer_step_of steps.now)) }
{
    let mut out = Vec::new(alloc);
    for step in steps {
        put_step(step, &mut out)?;
    }
    Ok(out)
}

/// Appends a step.
fn put_step(step: &JsonStep, out: &mut Vec<u8>) -> Result<(), AllocError>
    ensures { OnOk result (out.new.items ≡ out.old.items ++ pointer_step (pointer_step_of step.now)) }
{
    out.push(b'/')?;
    match step {
        JsonStep::Item(number) => put_decimal(u128::from(*number), out),
        JsonStep::Member(name) => put_marked(name.as_bytes(), out),
    }
}
