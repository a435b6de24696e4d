//! Reports all elements of a list or array of `U8` as one piece.
ghost use Rattle.std.specs.Prelude.{◌≡◌, ◌+◌, ◌<◌, ◌≤◌, ◌^◌, true, length};
ghost use Rattle.std.specs.Int.{w8};
ghost use Rattle.bcs_registry_model.specs.Shape as shape;
ghost use Rattle.bcs_registry_model.specs.View.{shape_of};
ghost use Rattle.bcs_decode_spec.specs.Reading.{items_here, skipping};
ghost use Rattle.bcs_decode_spec.specs.Steps.{whole_here};
ghost use Rattle.bcs_decode_slice.specs.Passing.{Passes, Onward};
ghost use Rattle.bcs_explain.specs.Covering.{Covers};

use crate::listener::{Counted, Expected, Listener, Meaning};
use crate::reporting::report_piece;
use crate::trail::Trail;
use bcs_decode_slice::cursor::Cursor;
use bcs_decode_slice::integers::skip_integers;
use bcs_decode_spec::Stop;
use bcs_registry_model::Format;

/// Whether elements of the format are reported as one piece.
pub fn is_octet(format: &Format) -> bool
    ensures { result ≡ true → shape_of format.now ≡ shape.unsigned w8 }
{
    matches!(format, Format::U8)
}

/// What the length of a list with this element counts.
pub fn counted_in(element: &Format) -> Counted {
    match element {
        Format::U8 => Counted::Octets,
        _ => Counted::List,
    }
}

/// Reports `count` elements of format `U8`.
#[inline(never)]
#[tactic(auto, using(crate::proofs::Advancing::advances_octets))]
pub fn report_octets<T: Listener>(
    cursor: &mut Cursor,
    count: u64,
    trail: &Trail<'_, '_, '_>,
    out: &mut T,
) -> Result<(), Stop>
    requires room { cursor.old.place + length cursor.old.rest.now < 2 ^ 64 }
    ensures passes { Passes (λ x. x) result (items_here skipping (whole_here 1) count) cursor.old cursor.new }
    ensures onward { Onward cursor.old cursor.new }
    ensures covers { Covers T.heard result cursor.old out.old cursor.new out.new }
{
    let (start, from) = (cursor.place, cursor.rest);
    match skip_integers(cursor, 1, count) {
        Ok(()) => {
            report_piece(start, from, cursor, trail, Meaning::Octets, out);
            Ok(())
        }
        Err(stop) => {
            out.halt(trail, Expected::Octets(count));
            Err(stop)
        }
    }
}
