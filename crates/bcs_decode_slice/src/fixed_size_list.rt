//! Skips lists of fixed-size values in one step.
ghost use Rattle.std.specs.Prelude.{◌≡◌, ℕ, ◌+◌, ◌-◌, ◌*◌, ◌<◌, ◌≤◌, ◌^◌, length, drop};
ghost use Rattle.bcs_registry_model.specs.View.{shape_of};
ghost use Rattle.bcs_decode_spec.specs.Reading.{items_here, skipping};
ghost use Rattle.bcs_decode_spec.specs.Steps.{skip};
ghost use Rattle.bcs_decode_slice.specs.Passing.{Onward};

use crate::cursor::{Cursor, advance};
use crate::fixed_size::FixedSize;
use crate::measuring::value_size;
use bcs_registry::{Format, Registry};

/// The shortest list for which the element format is examined.
pub const MIN_COUNT: u64 = 16;

/// The maximum number of formats to examine for one list.
pub const MAX_FORMATS: u32 = 256;

/// Skips the leading values of a list in one step, if all values of `element` have the same size, and returns how many
/// it skipped. The caller skips the rest one at a time. Inlined, so that a short list costs no call.
#[inline(always)]
pub fn skip_fixed_size_list(
    registry: &Registry,
    element: &Format,
    count: u64,
    depth: u32,
    cursor: &mut Cursor,
) -> u64
    requires room { cursor.old.place + length cursor.old.rest.now < 2 ^ 64 }
    ensures within { result ≤ count }
    ensures whole { items_here skipping (skip registry.now depth (shape_of element.now)) count cursor.old.place cursor.old.nodes cursor.old.rest.now
        ≡ items_here skipping (skip registry.now depth (shape_of element.now)) (count - result) cursor.new.place cursor.new.nodes cursor.new.rest.now }
    ensures onward { Onward cursor.old cursor.new }
{
    if count < MIN_COUNT {
        return 0;
    }
    long_row(registry, element, count, depth, cursor)
}

/// `skip_fixed_size_list` for a list of at least `MIN_COUNT` values.
#[inline(never)]
fn long_row(
    registry: &Registry,
    element: &Format,
    count: u64,
    depth: u32,
    cursor: &mut Cursor,
) -> u64
    requires room { cursor.old.place + length cursor.old.rest.now < 2 ^ 64 }
    ensures within { result ≤ count }
    ensures whole { items_here skipping (skip registry.now depth (shape_of element.now)) count cursor.old.place cursor.old.nodes cursor.old.rest.now
        ≡ items_here skipping (skip registry.now depth (shape_of element.now)) (count - result) cursor.new.place cursor.new.nodes cursor.new.rest.now }
    ensures onward { Onward cursor.old cursor.new }
{
    let mut looks = MAX_FORMATS;
    match value_size(registry, element, depth, &mut looks) {
        Some(size) => sized_row(cursor, size, count),
        None => 0,
    }
}

/// Skips as many of `count` values of the given size as the remaining bytes and nodes allow, and returns how many.
pub fn sized_row(cursor: &mut Cursor, size: FixedSize, count: u64) -> u64
    requires room { cursor.old.place + length cursor.old.rest.now < 2 ^ 64 }
    requires node { 0 < size.nodes }
    ensures within { result ≤ count }
    ensures bytes { result * size.bytes ≤ length cursor.old.rest.now }
    ensures begun { result * size.nodes ≤ cursor.old.nodes }
    ensures most { (k : ℕ) → k ≤ count → k * size.bytes ≤ length cursor.old.rest.now → k * size.nodes ≤ cursor.old.nodes → k ≤ result }
    ensures rest { cursor.new.rest.now ≡ drop (result * size.bytes) cursor.old.rest.now }
    ensures place { cursor.new.place ≡ cursor.old.place + result * size.bytes }
    ensures nodes { cursor.new.nodes ≡ cursor.old.nodes - result * size.nodes }
{
    let begun = count.min(u64::from(cursor.nodes) / size.nodes);
    let gone = if size.bytes == 0 {
        begun
    } else {
        begun.min(cursor.rest.len() as u64 / size.bytes)
    };
    advance(cursor, (gone * size.bytes) as usize);
    cursor.nodes -= (gone * size.nodes) as u32;
    gone
}
