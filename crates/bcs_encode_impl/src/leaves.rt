//! Validates and encodes values without parts and lists of integers. Each function returns how many nodes are left of
//! the limit, or `None` if the value is invalid or the limit is exceeded.
ghost use Rattle.std.specs.Prelude.{◌≡◌, ℕ, ◌&&◌, length, nat_le, IfSome, None, [], false, if◌then◌else◌};
ghost use Rattle.std.specs.Str.{is_utf8};
ghost use Rattle.bcs_num.specs.Le.{holds_signed, holds_unsigned, width_of};
ghost use Rattle.bcs_registry_model.specs.Container.{Entries, of};
ghost use Rattle.bcs_registry_model.specs.View.{shape_of};
ghost use Rattle.bcs_value_model.specs.Tree.{signed, unsigned};
ghost use Rattle.bcs_value_model.specs.Fits.{are_bytes, all_fit};
ghost use Rattle.bcs_encode_spec.specs.Lengths.{length_limit};
ghost use Rattle.bcs_encode_impl.specs.Writing.{bytes_written, signed_written, unsigned_written, written, items_written};
ghost use Rattle.bcs_encode_impl.specs.Appends.{Appends};
ghost use Rattle.bcs_encode_impl.specs.Validating.{validated, leaf, less};
ghost use Rattle.bcs_registry_model.specs.Whole.{whole_shape};
ghost use Rattle.bcs_value_model.specs.View.{items_trees};

use crate::number_rows::are_numbers;
use crate::output::Output;
use bcs_num::{LENGTH_LIMIT, Width};
use bcs_registry_model::{Format, IntegerKind, Kind, Scalar};
use bcs_value_model::Value;

/// Subtracts `count` from a limit. Returns `None` if less than `count` is left.
#[inline(always)]
pub fn take(count: u64, from: u64) -> Option<u64>
    ensures { result ≡ less count from }
{
    from.checked_sub(count)
}

/// Charges one node for a value without parts that is valid if `good`.
#[inline(always)]
pub fn charge_leaf(nodes: u64, good: bool) -> Option<u64>
    ensures { result ≡ leaf good nodes }
{
    if good { take(1, nodes) } else { None }
}

/// Validates and appends a string. Its length must be at most `LENGTH_LIMIT`.
#[inline(always)]
pub fn write_text(nodes: u64, text: &str, out: &mut Output) -> Option<u64>
    ensures validated { result ≡ leaf (is_utf8 text.now && nat_le (length text.now) length_limit) nodes }
    ensures appended { Appends out.old out.new (bytes_written text.now) }
{
    out.push_bytes(text.as_bytes());
    charge_leaf(nodes, text.len() <= LENGTH_LIMIT)
}

/// Validates and appends a byte string. Its length must be at most `LENGTH_LIMIT`.
#[inline(always)]
pub fn write_bytes(nodes: u64, bytes: &[u8], out: &mut Output) -> Option<u64>
    ensures validated { result ≡ leaf (are_bytes bytes.now && nat_le (length bytes.now) length_limit) nodes }
    ensures appended { Appends out.old out.new (bytes_written bytes.now) }
{
    out.push_bytes(bytes);
    charge_leaf(nodes, bytes.len() <= LENGTH_LIMIT)
}

/// Validates and appends an unsigned integer of a width.
#[inline(always)]
fn write_unsigned_width(width: Width, nodes: u64, number: u128, out: &mut Output) -> Option<u64>
    ensures validated { result ≡ leaf (holds_unsigned (width_of width) number) nodes }
    ensures appended { Appends out.old out.new (unsigned_written (width_of width) number) }
{
    out.push_unsigned(width, number);
    charge_leaf(nodes, width.holds_unsigned(number))
}

/// Validates and appends a signed integer of a width.
#[inline(always)]
fn write_signed_width(width: Width, nodes: u64, number: i128, out: &mut Output) -> Option<u64>
    ensures validated { result ≡ leaf (holds_signed (width_of width) number) nodes }
    ensures appended { Appends out.old out.new (signed_written (width_of width) number) }
{
    out.push_signed(width, number);
    charge_leaf(nodes, width.holds_signed(number))
}

/// Validates and appends an unsigned integer, whatever `format` is.
#[inline(always)]
pub fn write_unsigned(format: &Format, nodes: u64, number: &u128, out: &mut Output) -> Option<u64>
    ensures validated { (r : Entries) (depth : ℕ) → result ≡ validated r (unsigned number.now) (of (shape_of format.now)) depth nodes }
    ensures appended { IfSome result (λ _. (r : Entries) → Appends out.old out.new (written r (unsigned number.now) (of (shape_of format.now)))) }
{
    match format.kind() {
        Kind::Scalar(Scalar::Whole(IntegerKind::Unsigned(width))) => {
            write_unsigned_width(width, nodes, *number, out)
        }
        Kind::Scalar(
            Scalar::Unit
            | Scalar::Bool
            | Scalar::Whole(IntegerKind::Signed(_))
            | Scalar::Unsupported(_)
            | Scalar::Str
            | Scalar::Bytes,
        )
        | Kind::TypeName(_)
        | Kind::Opt(_)
        | Kind::Seq(_)
        | Kind::Map(_, _)
        | Kind::Tuple(_)
        | Kind::TupleArray(_, _) => None,
    }
}

/// Validates and appends a signed integer, whatever `format` is.
#[inline(always)]
pub fn write_signed(format: &Format, nodes: u64, number: &i128, out: &mut Output) -> Option<u64>
    ensures validated { (r : Entries) (depth : ℕ) → result ≡ validated r (signed number.now) (of (shape_of format.now)) depth nodes }
    ensures appended { IfSome result (λ _. (r : Entries) → Appends out.old out.new (written r (signed number.now) (of (shape_of format.now)))) }
{
    match format.kind() {
        Kind::Scalar(Scalar::Whole(IntegerKind::Signed(width))) => {
            write_signed_width(width, nodes, *number, out)
        }
        Kind::Scalar(
            Scalar::Unit
            | Scalar::Bool
            | Scalar::Whole(IntegerKind::Unsigned(_))
            | Scalar::Unsupported(_)
            | Scalar::Str
            | Scalar::Bytes,
        )
        | Kind::TypeName(_)
        | Kind::Opt(_)
        | Kind::Seq(_)
        | Kind::Map(_, _)
        | Kind::Tuple(_)
        | Kind::TupleArray(_, _) => None,
    }
}

/// Validates and appends a list of integers. An integer looks up no container, so the contract uses an empty registry.
pub fn write_numbers(
    format: IntegerKind,
    nodes: u64,
    items: &[Value],
    out: &mut Output,
) -> Option<u64>
    ensures validated { result ≡ (if all_fit false [] (items_trees items.now) (whole_shape format) then less (length items.now) nodes else None) }
    ensures appended { Appends out.old out.new (items_written [] (items_trees items.now) (whole_shape format)) }
{
    out.push_numbers(format, items);
    if out.is_complete() || are_numbers(format, items) {
        take(items.len() as u64, nodes)
    } else {
        None
    }
}
