//! The value that a JSON document represents, and its bytes.
ghost use Rattle.std.specs.Prelude.{IfErr, IfOk};
ghost use Rattle.bcs_registry_model.specs.View.{shape_of};
ghost use Rattle.bcs_value_model.specs.View.{tree_of};
ghost use Rattle.bcs_encode_spec.specs.Encodes.{Encodes};
ghost use Rattle.bcs_json_spec.specs.Texts.{Denotes};
ghost use Rattle.bcs_json.specs.Refusing.{IsRefusedAs};

use crate::spelling::spelled;
use crate::text_refusal::TextRefusal;
use bcs_encode::encode;
use bcs_registry::{Format, Registry};
use bcs_value::{Limits, Value};
use std::alloc::Global;

/// The value that a document represents, with map entries in the order given, and its encoding. Encoding validates it.
pub(crate) fn denoted(
    alloc: Global,
    registry: &Registry,
    format: &Format,
    limits: &Limits,
    text: &[u8],
) -> Result<(Value, Vec<u8>), TextRefusal>
    ensures denotes { IfOk result (λ r. Denotes registry.now limits.now (shape_of format.now) text.now (tree_of r.0)) }
    ensures encodes { IfOk result (λ r. Encodes registry.now limits.now (shape_of format.now) (tree_of r.0) r.1.items) }
    ensures refused { IfErr result (IsRefusedAs registry.now limits.now (shape_of format.now) text.now) }
{
    registry.recall();
    let value = spelled(alloc, registry, format, limits, text)?;
    let bytes = encode(alloc, registry, format, limits, &value)?;
    Ok((value, bytes))
}
