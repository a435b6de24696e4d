//! The normal JSON document of a value.
ghost use Rattle.std.specs.Prelude.{◌≡◌, ◌≢◌, IfErr, IfOk, string_bytes};
ghost use Rattle.bcs_registry_model.specs.View.{shape_of};
ghost use Rattle.bcs_value_model.specs.Tree.{Tree};
ghost use Rattle.bcs_json_spec.specs.Headline.{Normalises};
ghost use Rattle.bcs_json_spec.specs.Texts.{Denotes, RefusesText};
ghost use Rattle.bcs_json_spec.specs.declared.json_fault.JsonFault.TheVariants.{OutOfMemory};
ghost use Rattle.bcs_json.specs.Refusing.{IsRefusedAs};

use crate::spelling::spelled;
use crate::text_refusal::TextRefusal;
use bcs_encode::into_canonical;
use bcs_json_printer::texts::show;
use bcs_json_spec::JsonFault;
use bcs_registry::{Format, Registry};
use bcs_value::Limits;
use std::alloc::Global;

/// The normal form of a JSON document: the compact JSON of the canonical form of its value. Normalising that again
/// returns the same document. It fails like [`read_value`](crate::read_value), and never because the result nests too
/// deep.
pub fn normalise(
    alloc: Global,
    registry: &Registry,
    format: &Format,
    limits: &Limits,
    text: &[u8],
) -> Result<String, JsonFault>
    ensures normal { IfOk result (λ out. Normalises registry.now limits.now (shape_of format.now) text.now (string_bytes out)) }
    ensures fault { IfErr result (λ e. e ≢ OutOfMemory → RefusesText registry.now limits.now (shape_of format.now) text.now e) }
    ensures memory { IfErr result (λ e. (t : Tree) → Denotes registry.now limits.now (shape_of format.now) text.now t → e ≡ OutOfMemory) }
{
    let normal = normalise_or_refusal(alloc, registry, format, limits, text)?;
    Ok(normal)
}

/// Like [`normalise`], and a refusal also says where the document is refused.
pub fn normalise_or_refusal(
    alloc: Global,
    registry: &Registry,
    format: &Format,
    limits: &Limits,
    text: &[u8],
) -> Result<String, TextRefusal>
    ensures normal { IfOk result (λ out. Normalises registry.now limits.now (shape_of format.now) text.now (string_bytes out)) }
    ensures refused { IfErr result (IsRefusedAs registry.now limits.now (shape_of format.now) text.now) }
{
    registry.recall();
    let value = spelled(alloc, registry, format, limits, text)?;
    let form = into_canonical(alloc, registry, format, limits, value)?;
    let shown = show(alloc, registry, format, &form)?;
    match shown {
        Some(out) => Ok(out),
        None => unreachable!(),
    }
}
