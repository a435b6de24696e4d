//! Reports what precedes the content of a value: its length, or the tag byte of an option.
ghost use Rattle.std.specs.Prelude.{◌≡◌, ◌+◌, ◌<◌, ◌≤◌, ◌^◌, length};
ghost use Rattle.bcs_decode_spec.specs.Steps.{counted_here, flag_past};
ghost use Rattle.bcs_decode_slice.specs.Passing.{Passes, Onward};
ghost use Rattle.bcs_explain.specs.Covering.{Covers};

use crate::listener::{Counted, Expected, Listener, Meaning};
use crate::reporting::report_piece;
use crate::trail::Trail;
use bcs_decode_slice::cursor::Cursor;
use bcs_decode_slice::shallow::{counted, flag_value};
use bcs_decode_spec::{Reason, Stop};

/// Reports the length of a string, a byte string, a list or a map, and returns it.
#[inline(never)]
#[tactic(auto, using(crate::proofs::Advancing::advances_counted))]
pub fn report_length<T: Listener>(
    cursor: &mut Cursor,
    what: Counted,
    trail: &Trail<'_, '_, '_>,
    out: &mut T,
) -> Result<u32, Stop>
    requires room { cursor.old.place + length cursor.old.rest.now < 2 ^ 64 }
    ensures passes { Passes (λ x. x) result counted_here cursor.old cursor.new }
    ensures onward { Onward cursor.old cursor.new }
    ensures covers { Covers T.heard result cursor.old out.old cursor.new out.new }
{
    let (start, from) = (cursor.place, cursor.rest);
    match counted(cursor) {
        Ok(count) => {
            let meaning = Meaning::Length(what, count);
            report_piece(start, from, cursor, trail, meaning, out);
            Ok(count)
        }
        Err(stop) => {
            out.halt(trail, Expected::Length(what));
            Err(stop)
        }
    }
}

/// Reports the tag byte of an option, and returns whether a value follows.
#[inline(never)]
#[tactic(auto, using(crate::proofs::Advancing::advances_flag))]
pub fn report_option_tag<T: Listener>(
    cursor: &mut Cursor,
    trail: &Trail<'_, '_, '_>,
    out: &mut T,
) -> Result<bool, Stop>
    requires room { cursor.old.place + length cursor.old.rest.now < 2 ^ 64 }
    ensures passes { Passes (λ x. x) result (flag_past Reason.BadOption) cursor.old cursor.new }
    ensures onward { Onward cursor.old cursor.new }
    ensures covers { Covers T.heard result cursor.old out.old cursor.new out.new }
{
    let (start, from) = (cursor.place, cursor.rest);
    match flag_value(cursor, Reason::BadOption) {
        Ok(is_present) => {
            let meaning = Meaning::Option(is_present);
            report_piece(start, from, cursor, trail, meaning, out);
            Ok(is_present)
        }
        Err(stop) => {
            out.halt(trail, Expected::Option);
            Err(stop)
        }
    }
}
