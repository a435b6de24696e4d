//! Skips what contains no other values. Not inlined, to keep the callers' stack frames small.
ghost use Rattle.std.specs.Prelude.{◌≡◌, ℕ, ◌+◌, ◌<◌, ◌≤◌, ◌^◌, IfOk, length};
ghost use Rattle.bcs_decode_spec.specs.Steps.{truth_here, whole_here, counted_here, text_past, bytes_past, unsupported_here, flag_past, enter_here, variant_past};
ghost use Rattle.bcs_decode_slice.specs.Passing.{Passes, Onward};

use crate::cursor::{Cursor, bytes, flag, length, node, number, text};
use bcs_decode_spec::{Reason, Stop};

#[inline(never)]
#[tactic(auto, unfolding(bcs_decode_spec::specs::Reading::chain, bcs_decode_spec::specs::Reading::give, bcs_decode_spec::specs::Steps::truth_here))]
pub fn truth(cursor: &mut Cursor) -> Result<(), Stop>
    requires room { cursor.old.place + length cursor.old.rest.now < 2 ^ 64 }
    ensures passes { Passes (λ x. x) result truth_here cursor.old cursor.new }
    ensures onward { Onward cursor.old cursor.new }
{
    node(cursor)?;
    flag(cursor, Reason::BadBool)?;
    Ok(())
}

/// Skips an integer of `count` bytes.
#[inline(never)]
#[tactic(auto, unfolding(bcs_decode_spec::specs::Reading::chain, bcs_decode_spec::specs::Reading::give, bcs_decode_spec::specs::Steps::whole_here))]
pub fn whole(cursor: &mut Cursor, count: usize) -> Result<(), Stop>
    requires room { cursor.old.place + length cursor.old.rest.now < 2 ^ 64 }
    ensures passes { Passes (λ x. x) result (whole_here count) cursor.old cursor.new }
    ensures onward { Onward cursor.old cursor.new }
{
    node(cursor)?;
    bytes(cursor, count)?;
    Ok(())
}

/// Counts a node, and reads a length.
#[inline(never)]
#[tactic(auto, unfolding(bcs_decode_spec::specs::Reading::chain, bcs_decode_spec::specs::Reading::give, bcs_decode_spec::specs::Steps::counted_here))]
pub fn counted(cursor: &mut Cursor) -> Result<u32, Stop>
    requires room { cursor.old.place + length cursor.old.rest.now < 2 ^ 64 }
    ensures passes { Passes (λ x. x) result counted_here cursor.old cursor.new }
    ensures onward { Onward cursor.old cursor.new }
{
    node(cursor)?;
    length(cursor)
}

#[inline(never)]
#[tactic(auto, unfolding(bcs_decode_spec::specs::Reading::chain, bcs_decode_spec::specs::Reading::give, bcs_decode_spec::specs::Steps::text_past))]
pub fn text_value(cursor: &mut Cursor) -> Result<(), Stop>
    requires room { cursor.old.place + length cursor.old.rest.now < 2 ^ 64 }
    ensures passes { Passes (λ x. x) result text_past cursor.old cursor.new }
    ensures onward { Onward cursor.old cursor.new }
{
    let count = counted(cursor)?;
    text(cursor, count as usize)?;
    Ok(())
}

#[inline(never)]
#[tactic(auto, unfolding(bcs_decode_spec::specs::Reading::chain, bcs_decode_spec::specs::Reading::give, bcs_decode_spec::specs::Steps::bytes_past))]
pub fn bytes_value(cursor: &mut Cursor) -> Result<(), Stop>
    requires room { cursor.old.place + length cursor.old.rest.now < 2 ^ 64 }
    ensures passes { Passes (λ x. x) result bytes_past cursor.old cursor.new }
    ensures onward { Onward cursor.old cursor.new }
{
    let count = counted(cursor)?;
    bytes(cursor, count as usize)?;
    Ok(())
}

#[inline(never)]
#[tactic(auto, unfolding(bcs_decode_spec::specs::Reading::chain, bcs_decode_spec::specs::Reading::fail_here, bcs_decode_spec::specs::Steps::unsupported_here))]
pub fn unsupported(cursor: &mut Cursor) -> Result<(), Stop>
    requires room { cursor.old.place + length cursor.old.rest.now < 2 ^ 64 }
    ensures passes { Passes (λ x. x) result unsupported_here cursor.old cursor.new }
    ensures onward { Onward cursor.old cursor.new }
{
    node(cursor)?;
    Err(Stop {
        reason: Reason::Unsupported,
        place: cursor.place,
    })
}

/// Counts a node, and reads a byte that must be `00` or `01`.
#[inline(never)]
#[tactic(auto, unfolding(bcs_decode_spec::specs::Reading::chain, bcs_decode_spec::specs::Reading::give, bcs_decode_spec::specs::Steps::flag_past))]
pub fn flag_value(cursor: &mut Cursor, bad: Reason) -> Result<bool, Stop>
    requires room { cursor.old.place + length cursor.old.rest.now < 2 ^ 64 }
    ensures passes { Passes (λ x. x) result (flag_past bad) cursor.old cursor.new }
    ensures onward { Onward cursor.old cursor.new }
{
    node(cursor)?;
    flag(cursor, bad)
}

/// Counts the node of a container. Fails with `TooDeep` if `depth` is 0.
#[inline(never)]
#[tactic(auto, using(bcs_decode_spec::proofs::ScalarSteps::enter_none, bcs_decode_spec::proofs::ScalarSteps::enter_more))]
pub fn enter(cursor: &mut Cursor, depth: u32) -> Result<(), Stop>
    requires room { cursor.old.place + length cursor.old.rest.now < 2 ^ 64 }
    ensures passes { Passes (λ x. x) result (enter_here depth) cursor.old cursor.new }
    ensures onward { Onward cursor.old cursor.new }
    ensures positive { IfOk result (λ _. 0 < depth) }
{
    if depth == 0 {
        return Err(Stop {
            reason: Reason::TooDeep,
            place: cursor.place,
        });
    }
    node(cursor)
}

/// Counts a node, and reads a variant's number. Returns the place of the number, and the number.
#[inline(never)]
#[tactic(auto, unfolding(bcs_decode_spec::specs::Reading::chain, bcs_decode_spec::specs::Reading::give, bcs_decode_spec::specs::Steps::variant_past))]
pub fn variant_number(cursor: &mut Cursor) -> Result<(u64, u32), Stop>
    requires room { cursor.old.place + length cursor.old.rest.now < 2 ^ 64 }
    ensures passes { Passes (λ x. x) result variant_past cursor.old cursor.new }
    ensures onward { Onward cursor.old cursor.new }
{
    node(cursor)?;
    let start = cursor.place;
    let found = number(cursor)?;
    Ok((start, found))
}
