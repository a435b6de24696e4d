//! Validates and encodes lists of integers, with a loop for each format.
ghost use Rattle.std.specs.Prelude.{◌≡◌, ◌+◌, ◌*◌, ◌<◌, ◌≤◌, [], false, length, vec_capacity, vec_len, IsErrOf, OnOk};
ghost use Rattle.bcs_registry_model.specs.Container.{of};
ghost use Rattle.bcs_registry_model.specs.Whole.{whole_len, whole_shape};
ghost use Rattle.bcs_value_model.specs.Fits.{all_fit, fits};
ghost use Rattle.bcs_value_model.specs.View.{items_trees, tree_of};
ghost use Rattle.bcs_encode_impl.specs.Writing.{ReportsVerdict, items_written, written};

use crate::pushing::{push_signed, push_unsigned};
use bcs_encode_spec::EncodeFault;
use bcs_num::Width;
use bcs_registry_model::IntegerKind;
use bcs_value_model::Value;

/// Whether all values are integers of the format.
pub fn are_numbers(format: IntegerKind, items: &[Value]) -> bool
    ensures { result ≡ all_fit false [] (items_trees items.now) (whole_shape format) }
{
    // Every format is passed as a constant, so that each gets a loop compiled for its width.
    match format {
        IntegerKind::Unsigned(Width::W1) => is_row(IntegerKind::Unsigned(Width::W1), items),
        IntegerKind::Unsigned(Width::W2) => is_row(IntegerKind::Unsigned(Width::W2), items),
        IntegerKind::Unsigned(Width::W4) => is_row(IntegerKind::Unsigned(Width::W4), items),
        IntegerKind::Unsigned(Width::W8) => is_row(IntegerKind::Unsigned(Width::W8), items),
        IntegerKind::Unsigned(Width::W16) => is_row(IntegerKind::Unsigned(Width::W16), items),
        IntegerKind::Signed(Width::W1) => is_row(IntegerKind::Signed(Width::W1), items),
        IntegerKind::Signed(Width::W2) => is_row(IntegerKind::Signed(Width::W2), items),
        IntegerKind::Signed(Width::W4) => is_row(IntegerKind::Signed(Width::W4), items),
        IntegerKind::Signed(Width::W8) => is_row(IntegerKind::Signed(Width::W8), items),
        IntegerKind::Signed(Width::W16) => is_row(IntegerKind::Signed(Width::W16), items),
    }
}

#[inline(always)]
fn is_row(format: IntegerKind, items: &[Value]) -> bool
    ensures { result ≡ all_fit false [] (items_trees items.now) (whole_shape format) }
{
    for item in items {
        if !is_number(format, item) {
            return false;
        }
    }
    true
}

#[inline(always)]
fn is_number(format: IntegerKind, value: &Value) -> bool
    ensures { result ≡ fits false [] (tree_of value.now) (of (whole_shape format)) }
{
    match (value, format) {
        (Value::Unsigned(number), IntegerKind::Unsigned(width)) => width.holds_unsigned(*number),
        (Value::Signed(number), IntegerKind::Signed(width)) => width.holds_signed(*number),
        _ => false,
    }
}

/// Appends a list of integers. Allocates nothing if the vector has room for the bytes. An integer looks up no
/// container, so the contract uses an empty registry.
#[inline(never)]
pub fn push_numbers(
    format: IntegerKind,
    items: &[Value],
    out: &mut Vec<u8>,
) -> Result<(), EncodeFault>
    ensures reports { ReportsVerdict result (items_written [] (items_trees items.now) (whole_shape format) out.old.items) out.new.items }
    ensures in_place { vec_len out.old + length items.now * whole_len format ≤ vec_capacity out.old
        → IsErrOf result EncodeFault.OutOfMemory → ⊥ }
{
    out.reserve(items.len().saturating_mul(format.byte_len()))?;
    // Every format is passed as a constant, so that each gets a loop compiled for its width.
    match format {
        IntegerKind::Unsigned(Width::W1) => push_row(IntegerKind::Unsigned(Width::W1), items, out),
        IntegerKind::Unsigned(Width::W2) => push_row(IntegerKind::Unsigned(Width::W2), items, out),
        IntegerKind::Unsigned(Width::W4) => push_row(IntegerKind::Unsigned(Width::W4), items, out),
        IntegerKind::Unsigned(Width::W8) => push_row(IntegerKind::Unsigned(Width::W8), items, out),
        IntegerKind::Unsigned(Width::W16) => push_row(
            IntegerKind::Unsigned(Width::W16),
            items,
            out,
        ),
        IntegerKind::Signed(Width::W1) => push_row(IntegerKind::Signed(Width::W1), items, out),
        IntegerKind::Signed(Width::W2) => push_row(IntegerKind::Signed(Width::W2), items, out),
        IntegerKind::Signed(Width::W4) => push_row(IntegerKind::Signed(Width::W4), items, out),
        IntegerKind::Signed(Width::W8) => push_row(IntegerKind::Signed(Width::W8), items, out),
        IntegerKind::Signed(Width::W16) => push_row(IntegerKind::Signed(Width::W16), items, out),
    }
}

#[inline(always)]
fn push_row(format: IntegerKind, items: &[Value], out: &mut Vec<u8>) -> Result<(), EncodeFault>
    ensures reports { ReportsVerdict result (items_written [] (items_trees items.now) (whole_shape format) out.old.items) out.new.items }
    ensures in_place { vec_len out.old + length items.now * whole_len format ≤ vec_capacity out.old
        → IsErrOf result EncodeFault.OutOfMemory → ⊥ }
{
    for item in items {
        push_plain(format, item, out)?;
    }
    Ok(())
}

#[inline(always)]
fn push_plain(format: IntegerKind, value: &Value, out: &mut Vec<u8>) -> Result<(), EncodeFault>
    ensures reports { ReportsVerdict result (written [] (tree_of value.now) (of (whole_shape format)) out.old.items) out.new.items }
    ensures len { OnOk result (vec_len out.new ≡ vec_len out.old + whole_len format) }
    ensures capacity { vec_capacity out.old ≤ vec_capacity out.new }
    ensures full { IsErrOf result EncodeFault.OutOfMemory
        → vec_capacity out.old < vec_len out.old + whole_len format }
{
    match (value, format) {
        (Value::Unsigned(number), IntegerKind::Unsigned(width)) => push_unsigned(
            width, *number, out,
        ),
        (Value::Signed(number), IntegerKind::Signed(width)) => push_signed(width, *number, out),
        _ => Err(EncodeFault::NotOfFormat),
    }
}
