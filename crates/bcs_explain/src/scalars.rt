//! Reports values without parts. These functions are outside the recursion.
ghost use Rattle.std.specs.Prelude.{◌≡◌, ◌+◌, ◌<◌, ◌≤◌, ◌^◌, IfOk, length};
ghost use Rattle.std.specs.Int.{byte_len, from_le_bytes};
ghost use Rattle.bcs_num.specs.Le.{width_of};
ghost use Rattle.bcs_registry_model.specs.Kind.{scalar_shape};
ghost use Rattle.bcs_decode_spec.specs.Steps.{flag_past};
ghost use Rattle.bcs_decode_slice.specs.Passing.{Passes, Onward};
ghost use Rattle.bcs_explain.specs.ScalarParsing.{discarding, node_and_bytes, scalar_past};
ghost use Rattle.bcs_explain.specs.Covering.{Covers};

use crate::checks::{node, unsupported};
use crate::listener::{Expected, Listener, Meaning};
use crate::reporting::report_piece;
use crate::strings::{report_byte_string, report_string};
use crate::trail::Trail;
use bcs_decode_slice::cursor::{self, Cursor, bytes};
use bcs_decode_slice::shallow::flag_value;
use bcs_decode_spec::{Reason, Stop};
use bcs_num::{Width, leading_unsigned};
use bcs_registry_model::{IntegerKind, Scalar};

/// Reports a value of a scalar format.
#[inline(never)]
pub fn report_scalar<T: Listener>(
    scalar: Scalar,
    cursor: &mut Cursor,
    trail: &Trail<'_, '_, '_>,
    out: &mut T,
) -> Result<(), Stop>
    requires room { cursor.old.place + length cursor.old.rest.now < 2 ^ 64 }
    ensures passes { Passes (λ x. x) result (scalar_past (scalar_shape scalar)) cursor.old cursor.new }
    ensures onward { Onward cursor.old cursor.new }
    ensures covers { Covers T.heard result cursor.old out.old cursor.new out.new }
{
    match scalar {
        Scalar::Unit => node(cursor, trail, out),
        Scalar::Bool => report_bool(cursor, trail, out),
        Scalar::Whole(IntegerKind::Unsigned(width)) => report_unsigned(cursor, width, trail, out),
        Scalar::Whole(IntegerKind::Signed(width)) => report_signed(cursor, width, trail, out),
        Scalar::Str => report_string(cursor, trail, out),
        Scalar::Bytes => report_byte_string(cursor, trail, out),
        Scalar::Unsupported(_) => unsupported(cursor, trail, out),
    }
}

/// Reports a Boolean.
#[tactic(auto, using(crate::proofs::Advancing::advances_flag), unfolding(bcs_decode_spec::specs::Reading::chain, bcs_decode_spec::specs::Reading::give, crate::specs::ScalarParsing::discarding))]
fn report_bool<T: Listener>(
    cursor: &mut Cursor,
    trail: &Trail<'_, '_, '_>,
    out: &mut T,
) -> Result<(), Stop>
    requires room { cursor.old.place + length cursor.old.rest.now < 2 ^ 64 }
    ensures passes { Passes (λ x. x) result (discarding (flag_past Reason.BadBool)) cursor.old cursor.new }
    ensures onward { Onward cursor.old cursor.new }
    ensures covers { Covers T.heard result cursor.old out.old cursor.new out.new }
{
    let (start, from) = (cursor.place, cursor.rest);
    match flag_value(cursor, Reason::BadBool) {
        Ok(is_true) => {
            report_piece(start, from, cursor, trail, Meaning::Truth(is_true), out);
            Ok(())
        }
        Err(stop) => {
            out.halt(trail, Expected::Truth);
            Err(stop)
        }
    }
}

/// Counts a node, and reads `count` bytes.
#[tactic(auto, unfolding(bcs_decode_spec::specs::Reading::chain, bcs_decode_spec::specs::Reading::give, bcs_decode_spec::specs::Reading::bytes_here, crate::specs::ScalarParsing::node_and_bytes))]
fn fixed_bytes<'a>(cursor: &mut Cursor<'a>, count: usize) -> Result<&'a [u8], Stop>
    requires room { cursor.old.place + length cursor.old.rest.now < 2 ^ 64 }
    ensures passes { Passes (λ x. x.now) result (node_and_bytes count) cursor.old cursor.new }
    ensures exact { IfOk result (λ x. length x.now ≡ count) }
    ensures onward { Onward cursor.old cursor.new }
{
    cursor::node(cursor)?;
    bytes(cursor, count)
}

/// The unsigned integer with this little-endian encoding.
fn unsigned_of(width: Width, bytes: &[u8]) -> u128
    requires { length bytes.now ≡ byte_len (width_of width) }
    ensures { result ≡ from_le_bytes (width_of width) bytes.now }
{
    match leading_unsigned(width, bytes) {
        Some(number) => number,
        None => 0,
    }
}

/// Reports an unsigned integer.
#[tactic(auto, using(crate::proofs::Advancing::advances_node_and_bytes), unfolding(bcs_decode_spec::specs::Reading::chain, bcs_decode_spec::specs::Reading::give, crate::specs::ScalarParsing::discarding))]
fn report_unsigned<T: Listener>(
    cursor: &mut Cursor,
    width: Width,
    trail: &Trail<'_, '_, '_>,
    out: &mut T,
) -> Result<(), Stop>
    requires room { cursor.old.place + length cursor.old.rest.now < 2 ^ 64 }
    ensures passes { Passes (λ x. x) result (discarding (node_and_bytes (byte_len (width_of width)))) cursor.old cursor.new }
    ensures onward { Onward cursor.old cursor.new }
    ensures covers { Covers T.heard result cursor.old out.old cursor.new out.new }
{
    let (start, from) = (cursor.place, cursor.rest);
    match fixed_bytes(cursor, width.byte_len()) {
        Ok(found) => {
            let meaning = Meaning::Unsigned(unsigned_of(width, found));
            report_piece(start, from, cursor, trail, meaning, out);
            Ok(())
        }
        Err(stop) => {
            out.halt(trail, Expected::Unsigned(width));
            Err(stop)
        }
    }
}

/// Reports a signed integer.
#[tactic(auto, using(crate::proofs::Advancing::advances_node_and_bytes), unfolding(bcs_decode_spec::specs::Reading::chain, bcs_decode_spec::specs::Reading::give, crate::specs::ScalarParsing::discarding))]
fn report_signed<T: Listener>(
    cursor: &mut Cursor,
    width: Width,
    trail: &Trail<'_, '_, '_>,
    out: &mut T,
) -> Result<(), Stop>
    requires room { cursor.old.place + length cursor.old.rest.now < 2 ^ 64 }
    ensures passes { Passes (λ x. x) result (discarding (node_and_bytes (byte_len (width_of width)))) cursor.old cursor.new }
    ensures onward { Onward cursor.old cursor.new }
    ensures covers { Covers T.heard result cursor.old out.old cursor.new out.new }
{
    let (start, from) = (cursor.place, cursor.rest);
    match fixed_bytes(cursor, width.byte_len()) {
        Ok(found) => {
            let meaning = Meaning::Signed(width, unsigned_of(width, found));
            report_piece(start, from, cursor, trail, meaning, out);
            Ok(())
        }
        Err(stop) => {
            out.halt(trail, Expected::Signed(width));
            Err(stop)
        }
    }
}
