//! The refusal of a value, and of the value that contains it. The rest of both is passed.
ghost use Rattle.std.specs.Prelude.{◌≡◌, ◌+◌, suc};
ghost use Rattle.json.specs.Reads.{token_of};
ghost use Rattle.bcs_json_spec.specs.Place.{item, member};
ghost use Rattle.bcs_json_passing.specs.Passing.{IfRefused, IsItemsRefusal, IsPassedWith, IsWithin, IsWithinItem, IsWithinOnly, is_count};

use crate::given_up::GivenUp;
use crate::passing::{pass_items, pass_rest};
use crate::steps::next_member;
use bcs_json_reader::refusal::{Refusal, at_item, at_member};
use bcs_json_spec::JsonFault;
use json::{Reader, Token};
use std::alloc::Global;

/// The refusal of the value that begins with `token`, whose rest is passed.
#[inline(never)]
pub fn refused(
    alloc: Global,
    fault: JsonFault,
    token: Token<'_>,
    depth: usize,
    reader: &mut Reader<'_>,
) -> GivenUp
    ensures { IfRefused (IsPassedWith fault (token_of token.entry) depth reader.old reader.new) result }
{
    match pass_rest(token, depth, reader) {
        Ok(()) => GivenUp::here(alloc, fault),
        Err(given_up) => given_up,
    }
}

/// The refusal of an array whose item with this number was refused, or of the array itself, unless it has as many items
/// as `wanted`. The items after that item are passed.
#[inline(never)]
pub fn refused_item(
    alloc: Global,
    number: usize,
    wanted: Option<u64>,
    given_up: GivenUp,
    depth: usize,
    reader: &mut Reader<'_>,
) -> GivenUp
    ensures { IfRefused (IsWithinItem number wanted depth reader.old reader.new given_up) result }
{
    match given_up {
        GivenUp::Unusual => GivenUp::Unusual,
        GivenUp::OutOfMemory => GivenUp::OutOfMemory,
        GivenUp::Refused(refusal) => match pass_items(depth, reader) {
            Ok(after) => {
                if is_wanted(wanted, number, after) {
                    within_item(alloc, number, Box::into_inner(refusal))
                } else {
                    GivenUp::here(alloc, JsonFault::BadShape)
                }
            }
            Err(given_up) => given_up,
        },
    }
}

// Whether an array may have this number of items: `before`, one more, and `after`.
fn is_wanted(wanted: Option<u64>, before: usize, after: usize) -> bool
    ensures { result ≡ is_count wanted (before + suc after) }
{
    match wanted {
        Some(wanted) => {
            u128::from(before as u64) + u128::from(after as u64) + 1 == u128::from(wanted)
        }
        None => true,
    }
}

/// The refusal of an array with items beyond those that it may have. They are passed.
#[inline(never)]
pub fn refused_items(alloc: Global, depth: usize, reader: &mut Reader<'_>) -> GivenUp
    ensures { IfRefused (IsItemsRefusal depth reader.old reader.new) result }
{
    match pass_items(depth, reader) {
        Ok(count) => {
            if count > 0 {
                GivenUp::here(alloc, JsonFault::BadShape)
            } else {
                GivenUp::Unusual
            }
        }
        Err(given_up) => given_up,
    }
}

/// The refusal of an object whose member `name` was refused. Gives up if there is another member.
#[inline(never)]
pub fn refused_only_member(
    alloc: Global,
    name: &str,
    given_up: GivenUp,
    reader: &mut Reader<'_>,
) -> GivenUp
    ensures { IfRefused (IsWithinOnly name.now reader.old reader.new given_up) result }
{
    match given_up {
        GivenUp::Unusual => GivenUp::Unusual,
        GivenUp::OutOfMemory => GivenUp::OutOfMemory,
        GivenUp::Refused(refusal) => match next_member(reader) {
            Ok(None) => within_member(alloc, name, Box::into_inner(refusal)),
            Ok(Some(_)) => GivenUp::Unusual,
            Err(given_up) => given_up,
        },
    }
}

fn within_item(alloc: Global, number: usize, refusal: Refusal) -> GivenUp
    ensures { IfRefused (IsWithin (item number) refusal) result }
{
    let inner: Result<(), Refusal> = Err(refusal);
    match at_item(alloc, number, inner) {
        Ok(()) => GivenUp::Unusual,
        Err(refusal) => GivenUp::of(alloc, refusal),
    }
}

/// The refusal of an object whose member `name` was refused.
pub fn within_member(alloc: Global, name: &str, refusal: Refusal) -> GivenUp
    ensures { IfRefused (IsWithin (member name.now) refusal) result }
{
    let inner: Result<(), Refusal> = Err(refusal);
    match at_member(alloc, name, inner) {
        Ok(()) => GivenUp::Unusual,
        Err(refusal) => GivenUp::of(alloc, refusal),
    }
}
