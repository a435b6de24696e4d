//! The bytes of JSON documents.
ghost use Rattle.std.specs.Prelude.{◌≡◌, ◌≢◌, IfErr, IfOk};
ghost use Rattle.bcs_registry_model.specs.View.{shape_of};
ghost use Rattle.bcs_value_model.specs.Tree.{Tree};
ghost use Rattle.bcs_json_spec.specs.Headline.{HasBytes};
ghost use Rattle.bcs_json_spec.specs.Texts.{Denotes, RefusesText};
ghost use Rattle.bcs_json_spec.specs.declared.json_fault.JsonFault.TheVariants.{OutOfMemory};
ghost use Rattle.bcs_json.specs.Refusing.{IsRefusedAs};

use crate::denoting::denoted;
use crate::text_refusal::TextRefusal;
use bcs_json_spec::JsonFault;
use bcs_registry::{Format, Registry};
use bcs_value::Limits;
use std::alloc::Global;

/// The encoding of the value that a JSON document represents. It fails like [`read_value`](crate::read_value).
pub fn to_bcs(
    alloc: Global,
    registry: &Registry,
    format: &Format,
    limits: &Limits,
    text: &[u8],
) -> Result<Vec<u8>, JsonFault>
    ensures bytes { IfOk result (λ b. HasBytes registry.now limits.now (shape_of format.now) text.now b.items) }
    ensures fault { IfErr result (λ e. e ≢ OutOfMemory → RefusesText registry.now limits.now (shape_of format.now) text.now e) }
    ensures memory { IfErr result (λ e. (t : Tree) → Denotes registry.now limits.now (shape_of format.now) text.now t → e ≡ OutOfMemory) }
{
    let bytes = to_bcs_or_refusal(alloc, registry, format, limits, text)?;
    Ok(bytes)
}

/// Like [`to_bcs`], and a refusal also says where the document is refused.
pub fn to_bcs_or_refusal(
    alloc: Global,
    registry: &Registry,
    format: &Format,
    limits: &Limits,
    text: &[u8],
) -> Result<Vec<u8>, TextRefusal>
    ensures bytes { IfOk result (λ b. HasBytes registry.now limits.now (shape_of format.now) text.now b.items) }
    ensures refused { IfErr result (IsRefusedAs registry.now limits.now (shape_of format.now) text.now) }
{
    let (_, bytes) = denoted(alloc, registry, format, limits, text)?;
    Ok(bytes)
}
