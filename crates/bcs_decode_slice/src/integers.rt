//! Skips lists of integers in one step.
ghost use Rattle.std.specs.Prelude.{◌+◌, ◌<◌, ◌≤◌, ◌^◌, length};
ghost use Rattle.bcs_decode_spec.specs.Reading.{items_here, skipping};
ghost use Rattle.bcs_decode_spec.specs.Steps.{whole_here};
ghost use Rattle.bcs_decode_slice.specs.Passing.{Passes, Onward};

use crate::cursor::{Cursor, advance, end_of_input};
use bcs_decode_spec::{Reason, Stop};
use bcs_num::GREATEST_LEN;

/// Skips `count` values of `width` bytes each.
#[inline(never)]
pub fn skip_integers(cursor: &mut Cursor, width: usize, count: u64) -> Result<(), Stop>
    requires room { cursor.old.place + length cursor.old.rest.now < 2 ^ 64 }
    requires small { width ≤ GREATEST_LEN }
    ensures passes { Passes (λ x. x) result (items_here skipping (whole_here width) count) cursor.old cursor.new }
    ensures onward { Onward cursor.old cursor.new }
{
    let nodes = u64::from(cursor.nodes);
    let some = count.min(nodes);
    let there = if width == 0 {
        some
    } else {
        (cursor.rest.len() / width) as u64
    };
    if there < some {
        return Err(end_of_input(cursor));
    }
    if nodes < count {
        return Err(Stop {
            reason: Reason::TooManyNodes,
            place: cursor.place + nodes * width as u64,
        });
    }
    advance(cursor, count as usize * width);
    cursor.nodes -= count as u32;
    Ok(())
}
