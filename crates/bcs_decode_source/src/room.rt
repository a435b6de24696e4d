//! Reserves memory, but at most for values that are known to exist.
ghost use Rattle.std.specs.Prelude.{◌≡◌, [], vec_capacity, OnOk};
ghost use Rattle.bcs_decode_source.specs.Reads.{room_for};

use crate::reader::Reader;
use std::alloc::AllocError;

/// Empties the vector and reserves capacity for `count` elements, or at most one for each byte known to follow.
#[inline(never)]
pub fn make_room<S, T: Drop>(
    reader: &Reader<'_, S>,
    found: &mut Vec<T>,
    count: u64,
) -> Result<(), AllocError>
    ensures empty { OnOk result (found.new.items ≡ []) }
    ensures room { OnOk result (vec_capacity found.new ≡ room_for reader.now count) }
{
    let left = reader.at.known.saturating_sub(reader.at.place);
    *found = Vec::with_capacity(reader.alloc, count.min(left) as usize)?;
    Ok(())
}
