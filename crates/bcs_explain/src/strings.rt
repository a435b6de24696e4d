//! Reports strings and byte strings: a length, and that number of bytes. These functions are outside the recursion.
ghost use Rattle.std.specs.Prelude.{◌≡◌, ◌+◌, ◌<◌, ◌≤◌, ◌^◌, length};
ghost use Rattle.bcs_decode_spec.specs.Reading.{bytes_here, text_here};
ghost use Rattle.bcs_decode_spec.specs.Steps.{bytes_past, text_past};
ghost use Rattle.bcs_decode_slice.specs.Passing.{Passes, Onward};
ghost use Rattle.bcs_explain.specs.ScalarParsing.{discarding};
ghost use Rattle.bcs_explain.specs.Covering.{Covers};

use crate::listener::{Counted, Expected, Listener, Meaning};
use crate::prefixes::report_length;
use crate::reporting::report_piece;
use crate::trail::Trail;
use bcs_decode_slice::cursor::{Cursor, bytes, text};
use bcs_decode_spec::Stop;

/// Reports a string with its length.
#[tactic(auto, using(crate::proofs::Covering::covers_then), unfolding(bcs_decode_spec::specs::Reading::chain, bcs_decode_spec::specs::Reading::give, crate::specs::ScalarParsing::discarding, bcs_decode_spec::specs::Steps::text_past))]
pub fn report_string<T: Listener>(
    cursor: &mut Cursor,
    trail: &Trail<'_, '_, '_>,
    out: &mut T,
) -> Result<(), Stop>
    requires room { cursor.old.place + length cursor.old.rest.now < 2 ^ 64 }
    ensures passes { Passes (λ x. x) result text_past cursor.old cursor.new }
    ensures onward { Onward cursor.old cursor.new }
    ensures covers { Covers T.heard result cursor.old out.old cursor.new out.new }
{
    let count = report_length(cursor, Counted::Text, trail, out)?;
    report_text(cursor, count as usize, trail, out)
}

/// Reports a byte string with its length.
#[tactic(auto, using(crate::proofs::Covering::covers_then), unfolding(bcs_decode_spec::specs::Reading::chain, bcs_decode_spec::specs::Reading::give, crate::specs::ScalarParsing::discarding, bcs_decode_spec::specs::Steps::bytes_past))]
pub fn report_byte_string<T: Listener>(
    cursor: &mut Cursor,
    trail: &Trail<'_, '_, '_>,
    out: &mut T,
) -> Result<(), Stop>
    requires room { cursor.old.place + length cursor.old.rest.now < 2 ^ 64 }
    ensures passes { Passes (λ x. x) result bytes_past cursor.old cursor.new }
    ensures onward { Onward cursor.old cursor.new }
    ensures covers { Covers T.heard result cursor.old out.old cursor.new out.new }
{
    let count = report_length(cursor, Counted::Bytes, trail, out)?;
    report_bytes(cursor, count as usize, trail, out)
}

/// Reports the `count` bytes of a string, which must be UTF-8 (RFC 3629).
#[tactic(auto, using(crate::proofs::Advancing::advances_text), unfolding(bcs_decode_spec::specs::Reading::chain, bcs_decode_spec::specs::Reading::give, crate::specs::ScalarParsing::discarding))]
fn report_text<T: Listener>(
    cursor: &mut Cursor,
    count: usize,
    trail: &Trail<'_, '_, '_>,
    out: &mut T,
) -> Result<(), Stop>
    requires room { cursor.old.place + length cursor.old.rest.now < 2 ^ 64 }
    ensures passes { Passes (λ x. x) result (discarding (text_here count)) cursor.old cursor.new }
    ensures onward { Onward cursor.old cursor.new }
    ensures covers { Covers T.heard result cursor.old out.old cursor.new out.new }
{
    let (start, from) = (cursor.place, cursor.rest);
    match text(cursor, count) {
        Ok(found) => {
            report_piece(start, from, cursor, trail, Meaning::Text(found), out);
            Ok(())
        }
        Err(stop) => {
            out.halt(trail, Expected::Text(count));
            Err(stop)
        }
    }
}

/// Reports the `count` bytes of a byte string.
#[tactic(auto, using(crate::proofs::Advancing::advances_bytes), unfolding(bcs_decode_spec::specs::Reading::chain, bcs_decode_spec::specs::Reading::give, crate::specs::ScalarParsing::discarding))]
fn report_bytes<T: Listener>(
    cursor: &mut Cursor,
    count: usize,
    trail: &Trail<'_, '_, '_>,
    out: &mut T,
) -> Result<(), Stop>
    requires room { cursor.old.place + length cursor.old.rest.now < 2 ^ 64 }
    ensures passes { Passes (λ x. x) result (discarding (bytes_here count)) cursor.old cursor.new }
    ensures onward { Onward cursor.old cursor.new }
    ensures covers { Covers T.heard result cursor.old out.old cursor.new out.new }
{
    let (start, from) = (cursor.place, cursor.rest);
    match bytes(cursor, count) {
        Ok(found) => {
            report_piece(start, from, cursor, trail, Meaning::Bytes(found), out);
            Ok(())
        }
        Err(stop) => {
            out.halt(trail, Expected::Bytes(count));
            Err(stop)
        }
    }
}
