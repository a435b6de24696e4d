//! Locations in a JSON document.

use crate::pointers::pointer_of;
use bcs_display_refusal::Location;
use bcs_json_spec::JsonStep;
use std::alloc::{AllocError, Global};

/// The location at the end of these steps into a JSON document.
pub(crate) fn location_of(alloc: Global, steps: &[JsonStep]) -> Result<Location, AllocError> {
    if steps.is_empty() {
        return Ok(Location::WholeText);
    }
    Ok(Location::Pointer(pointer_of(alloc, steps)?))
}
