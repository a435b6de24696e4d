//! Reads bytes from hexadecimal digits. Each function consumes its JSON, and drops it.
ghost use Rattle.std.specs.Prelude.{◌≡◌, IfOk, IfErr, string_bytes};
ghost use Rattle.serde_json.specs.View.{view};
ghost use Rattle.bcs_registry_model.specs.View.{shape_of};
ghost use Rattle.bcs_value_model.specs.Tree.{items};
ghost use Rattle.bcs_value_model.specs.View.{tree_of, items_trees};
ghost use Rattle.bcs_json_spec.specs.Bytes.{byte_trees, is_byte};
ghost use Rattle.bcs_json_spec.specs.Reading as spec;
ghost use Rattle.bcs_json_spec.specs.Reading.{Reports, follow, sized};

use crate::arrays::exactly;
use bcs_json_spec::JsonFault;
use bcs_registry_model::Format;
use bcs_value_model::Value;
use hex::FromHexError;
use serde_json::Value as Json;
use std::alloc::Global;

/// Reads a byte string.
#[inline(never)]
pub fn read_bytes(alloc: Global, json: Json) -> Result<Value, JsonFault>
    ensures { Reports tree_of result (spec.read_bytes (view json)) }
{
    match json {
        Json::String(text) => Ok(Value::Bytes(read_hex(alloc, text.as_str())?)),
        _ => Err(JsonFault::BadShape),
    }
}

/// Reads a list that is given as a string: hexadecimal digits, only for lists of `U8`.
#[inline(never)]
pub fn read_byte_text(
    alloc: Global,
    element: &Format,
    text: String,
) -> Result<Vec<Value>, JsonFault>
    ensures { Reports (λ v. items_trees v.items) result (spec.read_byte_text (is_byte (shape_of element.now)) (string_bytes text)) }
{
    let bytes = bytes_of(alloc, element, text)?;
    numbers(alloc, bytes.as_slice())
}

/// Reads an array that is given as a string: hexadecimal digits for `size` bytes, only for arrays of `U8`.
#[inline(never)]
pub fn read_byte_array(
    alloc: Global,
    element: &Format,
    size: u64,
    text: String,
) -> Result<Vec<Value>, JsonFault>
    ensures { Reports (λ v. items (items_trees v.items)) result (follow (spec.read_byte_text (is_byte (shape_of element.now)) (string_bytes text)) (sized size)) }
{
    let bytes = bytes_of(alloc, element, text)?;
    exactly(bytes.len(), size)?;
    numbers(alloc, bytes.as_slice())
}

// The bytes of the digits, if elements are bytes.
fn bytes_of(alloc: Global, element: &Format, text: String) -> Result<Vec<u8>, JsonFault>
    ensures { Reports (λ v. byte_trees v.items) result (spec.read_byte_text (is_byte (shape_of element.now)) (string_bytes text)) }
{
    if matches!(element, Format::U8) {
        read_hex(alloc, text.as_str())
    } else {
        Err(JsonFault::BadShape)
    }
}

// Decodes hexadecimal digits, in either case. `BadHex`: they are invalid.
#[tactic(auto, unfolding(bcs_json_spec::specs::Reading::read_hex))]
fn read_hex(alloc: Global, text: &str) -> Result<Vec<u8>, JsonFault>
    ensures { Reports (λ v. v.items) result (spec.read_hex text.now) }
{
    match hex::decode(alloc, text) {
        Ok(bytes) => Ok(bytes),
        Err(FromHexError::OutOfMemory) => Err(JsonFault::OutOfMemory),
        Err(_) => Err(JsonFault::BadHex),
    }
}

// Each byte as an integer value.
fn numbers(alloc: Global, bytes: &[u8]) -> Result<Vec<Value>, JsonFault>
    ensures ok { IfOk result (λ v. items_trees v.items ≡ byte_trees bytes.now) }
    ensures fault { IfErr result (λ e. e ≡ JsonFault.OutOfMemory) }
{
    let mut found = Vec::with_capacity(alloc, bytes.len())?;
    for byte in bytes {
        found.push(Value::Unsigned(u128::from(*byte)))?;
    }
    Ok(found)
}
