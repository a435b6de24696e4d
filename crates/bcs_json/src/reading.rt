//! Values from JSON documents.
ghost use Rattle.std.specs.Prelude.{◌≡◌, ◌≢◌, IfErr, IfOk};
ghost use Rattle.bcs_registry_model.specs.View.{shape_of};
ghost use Rattle.bcs_value_model.specs.Tree.{Tree};
ghost use Rattle.bcs_value_model.specs.View.{tree_of};
ghost use Rattle.bcs_json_spec.specs.Texts.{Denotes, RefusesText};
ghost use Rattle.bcs_json_spec.specs.declared.json_fault.JsonFault.TheVariants.{OutOfMemory};
ghost use Rattle.bcs_json.specs.Refusing.{IsRefusedAs};

use crate::denoting::denoted;
use crate::text_refusal::TextRefusal;
use bcs_json_spec::JsonFault;
use bcs_registry::{Format, Registry};
use bcs_value::{Limits, Value};
use std::alloc::Global;

/// The value that a JSON document represents, with map entries in the order given.
///
/// The tests come in this order. `NotJson`: `serde_json` rejects the document. `TooNested`: arrays and objects nest
/// more than 100 deep. Then the JSON is compared with the format, and the first mismatch is returned: `Unsupported`,
/// `BadShape`, `BadNumber`, `BadHex`, `UnknownField`, `MissingField`, `UnknownVariant` or `TooDeep`. Last, the whole
/// value is validated: `TooManyNodes`, `TooLong`, `RepeatedKey`. `OutOfMemory` may come instead of each result.
pub fn read_value(
    alloc: Global,
    registry: &Registry,
    format: &Format,
    limits: &Limits,
    text: &[u8],
) -> Result<Value, JsonFault>
    ensures denotes { IfOk result (λ v. Denotes registry.now limits.now (shape_of format.now) text.now (tree_of v)) }
    ensures fault { IfErr result (λ e. e ≢ OutOfMemory → RefusesText registry.now limits.now (shape_of format.now) text.now e) }
    ensures memory { IfErr result (λ e. (t : Tree) → Denotes registry.now limits.now (shape_of format.now) text.now t → e ≡ OutOfMemory) }
{
    let value = read_value_or_refusal(alloc, registry, format, limits, text)?;
    Ok(value)
}

/// Like [`read_value`], and a refusal also says where the document is refused.
pub fn read_value_or_refusal(
    alloc: Global,
    registry: &Registry,
    format: &Format,
    limits: &Limits,
    text: &[u8],
) -> Result<Value, TextRefusal>
    ensures denotes { IfOk result (λ v. Denotes registry.now limits.now (shape_of format.now) text.now (tree_of v)) }
    ensures refused { IfErr result (IsRefusedAs registry.now limits.now (shape_of format.now) text.now) }
{
    let (value, _) = denoted(alloc, registry, format, limits, text)?;
    Ok(value)
}
