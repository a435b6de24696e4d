//! Skips elements without bytes in one step. They aren't pieces, so nothing is reported.
ghost use Rattle.std.specs.Prelude.{◌≡◌, ℕ, ◌+◌, ◌-◌, ◌<◌, ◌≤◌, ◌^◌, length};
ghost use Rattle.bcs_registry_model.specs.View.{shape_of};
ghost use Rattle.bcs_decode_spec.specs.Reading.{items_here, skipping};
ghost use Rattle.bcs_decode_spec.specs.Steps.{skip};
ghost use Rattle.bcs_decode_slice.specs.Passing.{Onward};

use bcs_decode_slice::cursor::Cursor;
use bcs_decode_slice::fixed_size_list::{MAX_FORMATS, MIN_COUNT, sized_row};
use bcs_decode_slice::measuring::value_size;
use bcs_registry::{Format, Registry};

/// Skips the leading elements of a long list or array if values of `element` have no bytes, as far as the remaining
/// nodes allow. Returns how many it skipped; the elements after them keep their indices.
#[inline(never)]
pub fn skip_empty_elements(
    registry: &Registry,
    element: &Format,
    count: u64,
    depth: u32,
    cursor: &mut Cursor,
) -> u64
    requires room { cursor.old.place + length cursor.old.rest.now < 2 ^ 64 }
    ensures within { result ≤ count }
    ensures whole { items_here skipping (skip registry.now depth (shape_of element.now)) count cursor.old.place cursor.old.nodes cursor.old.rest.now
        ≡ items_here skipping (skip registry.now depth (shape_of element.now)) (count - result) cursor.new.place cursor.new.nodes cursor.new.rest.now }
    ensures onward { Onward cursor.old cursor.new }
    ensures place { cursor.new.place ≡ cursor.old.place }
    ensures rest { cursor.new.rest.now ≡ cursor.old.rest.now }
{
    if count < MIN_COUNT {
        return 0;
    }
    let mut formats = MAX_FORMATS;
    let Some(size) = value_size(registry, element, depth, &mut formats) else {
        return 0;
    };
    if size.bytes != 0 {
        return 0;
    }
    sized_row(cursor, size, count)
}
