//! Reads integers, and lists of them in one loop outside the recursion.
ghost use Rattle.std.specs.Prelude.{◌≡◌, ◌≢◌, ℕ, ℤ, pos, Some, None, IfSome, IfOk, IfErr};
ghost use Rattle.serde_json.specs.Find.{as_integer};
ghost use Rattle.serde_json.specs.View.{number_view, view, items_view};
ghost use Rattle.bcs_num.specs.Le.{width_of, IsUnsigned, IsSigned};
ghost use Rattle.bcs_json_spec.specs.Numbers.{SpellsWhole, whole_refusal};
ghost use Rattle.bcs_registry_model.specs.Container.{Entries};
ghost use Rattle.bcs_registry_model.specs.Whole.{whole_shape};
ghost use Rattle.bcs_value_model.specs.View.{tree_of, items_trees};
ghost use Rattle.bcs_json_spec.specs.JsonContent.{of};
ghost use Rattle.bcs_json_spec.specs.Place.{value, item_parts, parts};
ghost use Rattle.bcs_json_spec.specs.Reading.{Reports, read_data};
ghost use Rattle.bcs_json_reader.specs.Refused.{fault_alone, IsPlaced};
ghost use Rattle.bcs_json_spec.specs.Reading as spec;
ghost use Rattle.bcs_json_spec.specs.declared.json_fault.JsonFault.TheVariants.{OutOfMemory};

use crate::refusal::{Refusal, at_item};
use bcs_json_spec::JsonFault;
use bcs_num::{Width, parse_signed, parse_unsigned};
use bcs_registry_model::IntegerKind;
use bcs_value_model::Value;
use serde_json::{Number, Value as Json};
use std::alloc::Global;

/// Reads an unsigned integer.
#[inline(never)]
#[tactic(auto, using(crate::proofs::Whole::unsigned_told, crate::proofs::Whole::unsigned_refused))]
pub fn read_unsigned(width: Width, json: Json) -> Result<Value, JsonFault>
    ensures reads { Reports tree_of result (spec.read_unsigned (width_of width) (view json)) }
    ensures memory { IfErr result (λ e. e ≢ OutOfMemory) }
{
    Ok(Value::Unsigned(unsigned_of(width, &json)?))
}

/// Reads a signed integer.
#[inline(never)]
#[tactic(auto, using(crate::proofs::Whole::signed_told, crate::proofs::Whole::signed_refused))]
pub fn read_signed(width: Width, json: Json) -> Result<Value, JsonFault>
    ensures reads { Reports tree_of result (spec.read_signed (width_of width) (view json)) }
    ensures memory { IfErr result (λ e. e ≢ OutOfMemory) }
{
    Ok(Value::Signed(signed_of(width, &json)?))
}

/// Reads a list of integers. An integer opens no container, so the result is the same for every registry.
#[inline(never)]
pub(crate) fn read_numbers(
    alloc: Global,
    format: IntegerKind,
    items: Vec<Json>,
) -> Result<Vec<Value>, Refusal>
    ensures reports { (registry : Entries) (left : ℕ) → Reports (λ v. items_trees v.items) (fault_alone result)
        (spec.read_all (read_data registry left (of (whole_shape format))) (items_view items.items)) }
    ensures placed { (registry : Entries) (left : ℕ) → IsPlaced registry (item_parts left (whole_shape format) 0 (items_view items.items)) result }
{
    let mut found = Vec::with_capacity(alloc, items.len())?;
    for item in items {
        let outcome = read_number(format, item);
        let value = at_item(alloc, found.len(), outcome)?;
        found.push(value)?;
    }
    Ok(found)
}

// Reads an integer.
#[inline(always)]
fn read_number(format: IntegerKind, json: Json) -> Result<Value, Refusal>
    ensures reports { (registry : Entries) (left : ℕ) → Reports tree_of (fault_alone result) (read_data registry left (of (whole_shape format)) (view json)) }
    ensures placed { (registry : Entries) (left : ℕ) → IsPlaced registry (parts registry left (value (of (whole_shape format))) (view json)) result }
{
    match format {
        IntegerKind::Unsigned(width) => Ok(read_unsigned(width, json)?),
        IntegerKind::Signed(width) => Ok(read_signed(width, json)?),
    }
}

// The unsigned integer that the JSON spells, as a number or as a string of decimal digits.
fn unsigned_of(width: Width, value: &Json) -> Result<u128, JsonFault>
    ensures ok { IfOk result (λ n. SpellsWhole (view value.now) (pos n) × IsUnsigned (width_of width) n) }
    ensures none { IfErr result (λ _. (n : ℕ) → SpellsWhole (view value.now) (pos n)
        → ¬ IsUnsigned (width_of width) n) }
    ensures fault { IfErr result (λ e. e ≡ whole_refusal (view value.now)) }
{
    match value {
        Json::Number(number) => unsigned_in(width, number).ok_or(JsonFault::BadNumber),
        Json::String(text) => parse_unsigned(width, text.as_str()).ok_or(JsonFault::BadNumber),
        _ => Err(JsonFault::BadShape),
    }
}

// The signed integer that the JSON spells, as a number or as a string of decimal digits.
fn signed_of(width: Width, value: &Json) -> Result<i128, JsonFault>
    ensures ok { IfOk result (λ z. SpellsWhole (view value.now) z × IsSigned (width_of width) z) }
    ensures none { IfErr result (λ _. (z : ℤ) → SpellsWhole (view value.now) z
        → ¬ IsSigned (width_of width) z) }
    ensures fault { IfErr result (λ e. e ≡ whole_refusal (view value.now)) }
{
    match value {
        Json::Number(number) => signed_in(width, number).ok_or(JsonFault::BadNumber),
        Json::String(text) => parse_signed(width, text.as_str()).ok_or(JsonFault::BadNumber),
        _ => Err(JsonFault::BadShape),
    }
}

// The number, if `serde_json` represents it as an integer and it is in the unsigned range.
fn unsigned_in(width: Width, number: &Number) -> Option<u128>
    ensures some { IfSome result (λ n. (as_integer (number_view number.now) ≡ Some (pos n))
        × IsUnsigned (width_of width) n) }
    ensures none { result ≡ None → (n : ℕ) → as_integer (number_view number.now) ≡ Some (pos n)
        → ¬ IsUnsigned (width_of width) n }
{
    let whole = number.as_i128()?;
    let Ok(n) = u128::try_from(whole) else {
        return None;
    };
    if width.holds_unsigned(n) {
        Some(n)
    } else {
        None
    }
}

// The number, if `serde_json` represents it as an integer and it is in the signed range.
fn signed_in(width: Width, number: &Number) -> Option<i128>
    ensures some { IfSome result (λ z. (as_integer (number_view number.now) ≡ Some z)
        × IsSigned (width_of width) z) }
    ensures none { result ≡ None → (z : ℤ) → as_integer (number_view number.now) ≡ Some z
        → ¬ IsSigned (width_of width) z }
{
    let held = number.as_i128()?;
    if width.holds_signed(held) {
        Some(held)
    } else {
        None
    }
}
