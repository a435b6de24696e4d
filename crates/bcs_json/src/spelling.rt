//! The JSON of a document, and the value that it represents.
ghost use Rattle.std.specs.Prelude.{◌≡◌, ◌≢◌, IfErr, IfOk, IfSome, Some, map};
ghost use Rattle.serde_json.specs.View.{view};
ghost use Rattle.bcs_registry_model.specs.Container.{Entries};
ghost use Rattle.bcs_registry_model.specs.Shape.{Shape};
ghost use Rattle.bcs_registry_model.specs.View.{shape_of};
ghost use Rattle.bcs_value_model.specs.Limits.{Bounds};
ghost use Rattle.bcs_value_model.specs.View.{tree_of};
ghost use Rattle.bcs_json_reader.specs.Refused.{steps};
ghost use Rattle.bcs_json_spec.specs.Place.{pointer_step_of};
ghost use Rattle.bcs_json_spec.specs.Texts.{IsReadAs, SpelledBy, RefusesText};
ghost use Rattle.bcs_json_spec.specs.declared.json_fault.JsonFault.TheVariants.{OutOfMemory};
ghost use Rattle.bcs_json.specs.Refusing.{IsRefusedAs};

use crate::text_refusal::TextRefusal;
use bcs_json_reader::reading::read;
use bcs_json_reader::refusal::Refusal;
use bcs_json_spec::JsonFault;
use bcs_json_tokens::{GivenUp, is_not_json, value_of_text};
use bcs_registry::{Format, Registry};
use bcs_registry_json::{NESTING_LIMIT, nests_within, read_json};
use bcs_value::{Limits, Value};
use serde_json::Value as Json;
use std::alloc::Global;

/// Parses a document, whose arrays and objects must nest at most 100 deep.
pub(crate) fn json_of(alloc: Global, text: &[u8]) -> Result<Json, JsonFault>
    ensures read { IfOk result (λ json. IsReadAs text.now (view json)) }
    ensures fault { IfErr result (λ e. e ≢ OutOfMemory
        → (registry : Entries) (limits : Bounds) (s : Shape) → RefusesText registry limits s text.now e) }
{
    let json = read_json(alloc, text)?;
    if nests_within(&json, NESTING_LIMIT) {
        Ok(json)
    } else {
        Err(JsonFault::TooNested)
    }
}

/// The value that a document represents, with map entries in the order given. It isn't fully validated yet: it may have
/// too many nodes, a length above the limit, or equal keys. A plain document is read or refused by its tokens, and any
/// other JSON through a tree of it.
pub(crate) fn spelled(
    alloc: Global,
    registry: &Registry,
    format: &Format,
    limits: &Limits,
    text: &[u8],
) -> Result<Value, TextRefusal>
    ensures spelled { IfOk result (λ v. SpelledBy registry.now limits.now (shape_of format.now) text.now (tree_of v)) }
    ensures refused { IfErr result (IsRefusedAs registry.now limits.now (shape_of format.now) text.now) }
{
    match value_of_text(alloc, registry, format, limits, text) {
        Ok(value) => return Ok(value),
        Err(GivenUp::OutOfMemory) => return Err(TextRefusal::from(JsonFault::OutOfMemory)),
        Err(GivenUp::Refused(refusal)) => {
            return Err(text_refusal(alloc, Box::into_inner(refusal)));
        }
        Err(GivenUp::Unusual) => {}
    }
    if is_not_json(alloc, text) {
        return Err(TextRefusal::from(JsonFault::NotJson));
    }
    let json = json_of(alloc, text)?;
    match read(alloc, registry, format, limits.depth(), json) {
        Ok(value) => Ok(value),
        Err(refusal) => Err(text_refusal(alloc, refusal)),
    }
}

// The refusal of the document, with its steps from the outermost inwards.
fn text_refusal(alloc: Global, refusal: Refusal) -> TextRefusal
    ensures fault { result.fault ≡ refusal.fault }
    ensures steps { IfSome result.steps (λ v. (refusal.fault ≢ OutOfMemory) × (Some (map pointer_step_of v.items) ≡ steps refusal.location)) }
{
    if refusal.fault == JsonFault::OutOfMemory {
        return TextRefusal::from(JsonFault::OutOfMemory);
    }
    let steps = refusal.location.outward(alloc);
    TextRefusal {
        fault: refusal.fault,
        steps,
    }
}
