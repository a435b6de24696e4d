//! Where a document is refused, and what was expected there.
ghost use Rattle.std.specs.Prelude.{◌≡◌, ◌≢◌, List, ℕ, IfSome};
ghost use Rattle.bcs_json_spec.specs.declared.json_fault.JsonFault.TheVariants.{OutOfMemory};
ghost use Rattle.bcs_json.specs.Refusing.{IsRefusedAs};
ghost use Rattle.bcs_registry_model.specs.Container.{Entries};
ghost use Rattle.bcs_registry_model.specs.Shape.{Shape};
ghost use Rattle.bcs_value_model.specs.Limits.{Bounds};
ghost use Rattle.bcs_calls.specs.Places.{IsWhere, is_of_whole};

use crate::asked::Asked;
use bcs_display_errors::{pointer_of, text_refusal};
use bcs_json::{JsonFault, TextRefusal};
use std::alloc::Global;

/// Where a document is refused. `None` if an allocation fails.
pub(crate) fn place_of_text(alloc: Global, refusal: &TextRefusal) -> Option<Vec<u8>>
    ensures { IfSome result (λ place. (r : Entries) (l : Bounds) (s : Shape) (text : List ℕ) → refusal.now.fault ≢ OutOfMemory
        → IsRefusedAs r l s text refusal.now → IsWhere r l s text place.items refusal.now.fault) }
{
    if has_no_way(refusal.fault) {
        return Some(Vec::new(alloc));
    }
    match &refusal.steps {
        Some(steps) => pointer_of(alloc, steps).ok(),
        None => None,
    }
}

/// Whether this fault refuses a document as a whole.
fn has_no_way(fault: JsonFault) -> bool
    ensures { result ≡ is_of_whole fault }
{
    matches!(
        fault,
        JsonFault::NotJson
            | JsonFault::TooNested
            | JsonFault::TooManyNodes
            | JsonFault::TooLong
            | JsonFault::RepeatedKey
    )
}

/// What was expected in a refused document. If it isn't JSON, the line and the column come first. `None` if an allocation
/// fails.
pub(crate) fn words_of_text(
    alloc: Global,
    asked: &Asked,
    text: &[u8],
    refusal: &TextRefusal,
) -> Option<Vec<u8>> {
    let (registry, format) = (asked.registry, asked.format);
    let at = (refusal.fault, refusal.steps.as_deref());
    let told = text_refusal(alloc, registry, format, &asked.limits, text, at)?;
    told.words(alloc).ok()
}
