//! Reads values without parts. Each function consumes its JSON, so strings are moved, not copied.
ghost use Rattle.std.specs.Prelude.{◌≢◌, IfErr};
ghost use Rattle.serde_json.specs.View.{view};
ghost use Rattle.bcs_value_model.specs.View.{tree_of};
ghost use Rattle.bcs_json_spec.specs.Reading.{Reports};
ghost use Rattle.bcs_json_spec.specs.declared.json_fault.JsonFault.TheVariants.{OutOfMemory};
ghost use Rattle.bcs_registry_model.specs.View.{shape_of};
ghost use Rattle.bcs_json_spec.specs.Reading as spec;
ghost use Rattle.bcs_json_reader.specs.Leaf as leaf;

use crate::hexadecimal::read_bytes;
use crate::numbers::{read_signed, read_unsigned};
use bcs_json_spec::JsonFault;
use bcs_registry_model::{Format, IntegerKind, Kind, Scalar};
use bcs_value_model::Value;
use serde_json::Value as Json;
use std::alloc::Global;

/// Reads `null`.
#[inline(never)]
pub fn read_unit(json: Json) -> Result<Value, JsonFault>
    ensures reads { Reports tree_of result (spec.read_unit (view json)) }
    ensures memory { IfErr result (λ e. e ≢ OutOfMemory) }
{
    match json {
        Json::Null => Ok(Value::Unit),
        _ => Err(JsonFault::BadShape),
    }
}

/// Reads `true` or `false`.
#[inline(never)]
pub fn read_truth(json: Json) -> Result<Value, JsonFault>
    ensures reads { Reports tree_of result (spec.read_truth (view json)) }
    ensures memory { IfErr result (λ e. e ≢ OutOfMemory) }
{
    match json {
        Json::Bool(truth) => Ok(Value::Bool(truth)),
        _ => Err(JsonFault::BadShape),
    }
}

/// Reads a string, which moves into the value.
#[inline(never)]
pub fn read_text(json: Json) -> Result<Value, JsonFault>
    ensures reads { Reports tree_of result (spec.read_text (view json)) }
    ensures memory { IfErr result (λ e. e ≢ OutOfMemory) }
{
    match json {
        Json::String(text) => Ok(Value::Text(text)),
        _ => Err(JsonFault::BadShape),
    }
}

/// Reads a value without parts. `Unsupported`: the format has no values, or it has parts and is read elsewhere.
#[inline(never)]
pub fn read_leaf(alloc: Global, format: &Format, json: Json) -> Result<Value, JsonFault>
    ensures { Reports tree_of result (leaf.read_leaf (shape_of format.now) (view json)) }
{
    match format.kind() {
        Kind::Scalar(Scalar::Unit) => read_unit(json),
        Kind::Scalar(Scalar::Bool) => read_truth(json),
        Kind::Scalar(Scalar::Whole(IntegerKind::Unsigned(width))) => read_unsigned(width, json),
        Kind::Scalar(Scalar::Whole(IntegerKind::Signed(width))) => read_signed(width, json),
        Kind::Scalar(Scalar::Str) => read_text(json),
        Kind::Scalar(Scalar::Bytes) => read_bytes(alloc, json),
        Kind::Scalar(Scalar::Unsupported(_))
        | Kind::TypeName(_)
        | Kind::Opt(_)
        | Kind::Seq(_)
        | Kind::Map(_, _)
        | Kind::Tuple(_)
        | Kind::TupleArray(_, _) => Err(JsonFault::Unsupported),
    }
}
