//! Sends a serializer values without parts, and the brackets and names around parts. Even a single call has a function
//! of its own: so the serializer's code stays out of the stack frame of the recursive functions, and a must-fail edit
//! changes code outside their cycle, which is cheap to check.
ghost use Rattle.std.specs.Prelude.{◌≡◌, ◌<◌, ◌^◌, ◌∷◌, [], FitsSigned, IfOk, OnOk, Some, decimal, true};
ghost use Rattle.std.specs.Fmt.{signed_decimal};
ghost use Rattle.std.specs.Int.{w64};
ghost use Rattle.hex.specs.Hex.{encode_lower};
ghost use Rattle.serde.specs.Event.{Logs, field_key, map_begins, map_ends, seq_begins, seq_ends};
ghost use Rattle.serde.specs.declared.name.Case.TheVariants.{AsIs};
ghost use Rattle.serde_json.specs.Data.{boolean, null, number as json_number, string, unsigned};
ghost use Rattle.serde_json.specs.Events.{SendsValue};
ghost use Rattle.serde_json.specs.Find.{of_integer};
ghost use Rattle.bcs_value_model.specs.Tree.{no_trees, tree};
ghost use Rattle.bcs_value_model.specs.View.{items_trees, tree_of};
ghost use Rattle.bcs_value_model.specs.Fits.{are_bytes};
ghost use Rattle.bcs_json_spec.specs.Bytes.{trees_bytes};

use bcs_value_model::Value;
use itoa::Buffer;
use serde::Serializer;
use std::alloc::{AllocError, Global};

/// `null`.
#[inline(never)]
pub(crate) fn send_null<S: Serializer>(out: &mut S) -> Result<(), S::Error>
    ensures { OnOk result (SendsValue null (S.written out.old) (S.written out.new)) }
{
    out.unit()
}

/// `true` or `false`.
#[inline(never)]
pub(crate) fn send_truth<S: Serializer>(truth: bool, out: &mut S) -> Result<(), S::Error>
    ensures { OnOk result (SendsValue (boolean truth) (S.written out.old) (S.written out.new)) }
{
    out.bool(truth)
}

/// A string.
#[inline(never)]
pub(crate) fn send_text<S: Serializer>(text: &str, out: &mut S) -> Result<(), S::Error>
    ensures { OnOk result (SendsValue (string text.now) (S.written out.old) (S.written out.new)) }
{
    out.str(text)
}

/// An unsigned integer below 2^64, as a JSON number.
#[inline(never)]
pub(crate) fn send_narrow_unsigned<S: Serializer>(number: u128, out: &mut S) -> Result<(), S::Error>
    requires { number < 2 ^ 64 }
    ensures { OnOk result (SendsValue (json_number (unsigned number)) (S.written out.old) (S.written out.new)) }
{
    out.u64(number as u64)
}

/// A signed integer of at most 64 bits, as a JSON number.
#[inline(never)]
pub(crate) fn send_narrow_signed<S: Serializer>(number: i128, out: &mut S) -> Result<(), S::Error>
    requires { FitsSigned w64 number }
    ensures { OnOk result (SendsValue (json_number (of_integer number)) (S.written out.old) (S.written out.new)) }
{
    if number < 0 {
        out.i64(number as i64)
    } else {
        out.u64(number as u64)
    }
}

/// An unsigned integer as a string of its decimal digits.
#[inline(never)]
pub(crate) fn send_wide_unsigned<S: Serializer>(number: u128, out: &mut S) -> Result<(), S::Error>
    ensures { OnOk result (SendsValue (string (decimal number)) (S.written out.old) (S.written out.new)) }
{
    let mut digits = Buffer::new();
    out.str(digits.format(number))
}

/// A signed integer as a string of its decimal digits, with a leading `-` if it is negative.
#[inline(never)]
pub(crate) fn send_wide_signed<S: Serializer>(number: i128, out: &mut S) -> Result<(), S::Error>
    ensures { OnOk result (SendsValue (string (signed_decimal number)) (S.written out.old) (S.written out.new)) }
{
    let mut signed_digits = Buffer::new();
    out.str(signed_digits.format(number))
}

/// Bytes as a string of two lower-case hexadecimal digits each. A failed allocation is reported by `custom`, the only
/// way to make an error of the serializer.
#[inline(never)]
pub(crate) fn send_bytes<S: Serializer>(
    alloc: Global,
    bytes: &[u8],
    out: &mut S,
) -> Result<(), S::Error>
    ensures { OnOk result (SendsValue (string (encode_lower bytes.now)) (S.written out.old) (S.written out.new)) }
{
    match hex::encode(alloc, bytes) {
        Ok(digits) => out.str(digits.as_str()),
        Err(_) => Err(out.custom("out of memory")),
    }
}

/// A list of bytes as a string of two hexadecimal digits each.
#[inline(never)]
pub(crate) fn send_byte_list<S: Serializer>(
    alloc: Global,
    items: &[Value],
    out: &mut S,
) -> Result<(), S::Error>
    requires bytes { are_bytes (trees_bytes (items_trees items.now)) ≡ true }
    ensures { OnOk result (SendsValue (string (encode_lower (trees_bytes (items_trees items.now))))
        (S.written out.old) (S.written out.new)) }
{
    match bytes_of(alloc, items) {
        Ok(bytes) => send_bytes(alloc, bytes.as_slice(), out),
        Err(_) => Err(out.custom("out of memory")),
    }
}

/// The bytes that the values are.
fn bytes_of(alloc: Global, items: &[Value]) -> Result<Vec<u8>, AllocError>
    requires bytes { are_bytes (trees_bytes (items_trees items.now)) ≡ true }
    ensures { IfOk result (λ v. v.items ≡ trees_bytes (items_trees items.now)) }
{
    let mut bytes = Vec::with_capacity(alloc, items.len())?;
    for item in items {
        bytes.push(byte_of(item))?;
    }
    Ok(bytes)
}

/// The byte that the value is.
fn byte_of(item: &Value) -> u8
    requires byte { are_bytes (trees_bytes (tree (tree_of item.now) no_trees)) ≡ true }
    ensures { trees_bytes (tree (tree_of item.now) no_trees) ≡ result ∷ [] }
{
    match item {
        Value::Unsigned(number) => *number as u8,
        _ => 0,
    }
}

/// The beginning of a sequence of `length` elements, where `left` more arrays and objects may nest.
#[inline(never)]
pub(crate) fn open_seq<S: Serializer>(
    left: usize,
    length: usize,
    out: &mut S,
) -> Result<(), S::Error>
    ensures begins { OnOk result (Logs (S.written out.old) (S.written out.new) (seq_begins (Some length))) }
    ensures left { OnOk result (0 < left) }
{
    if left == 0 {
        return Err(out.custom("the JSON nests too deep"));
    }
    out.begin_seq(Some(length))
}

/// The end of a sequence.
#[inline(never)]
pub(crate) fn close_seq<S: Serializer>(out: &mut S) -> Result<(), S::Error>
    ensures { OnOk result (Logs (S.written out.old) (S.written out.new) seq_ends) }
{
    out.end_seq()
}

/// The beginning of a map of `length` members, likewise.
#[inline(never)]
pub(crate) fn open_map<S: Serializer>(
    left: usize,
    length: usize,
    out: &mut S,
) -> Result<(), S::Error>
    ensures begins { OnOk result (Logs (S.written out.old) (S.written out.new) (map_begins (Some length))) }
    ensures left { OnOk result (0 < left) }
{
    if left == 0 {
        return Err(out.custom("the JSON nests too deep"));
    }
    out.begin_map(Some(length))
}

/// The name of a member. Its value must follow.
#[inline(never)]
pub(crate) fn send_name<S: Serializer>(name: &str, out: &mut S) -> Result<(), S::Error>
    ensures { OnOk result (Logs (S.written out.old) (S.written out.new) (field_key name.now AsIs)) }
{
    out.key(name)
}

/// The end of a map.
#[inline(never)]
pub(crate) fn close_map<S: Serializer>(out: &mut S) -> Result<(), S::Error>
    ensures { OnOk result (Logs (S.written out.old) (S.written out.new) map_ends) }
{
    out.end_map()
}
