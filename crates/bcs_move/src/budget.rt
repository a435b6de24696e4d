//! How many characters the types may have that are made.

use bcs_move_types::place::Place;
use bcs_move_types::refusal::{MoveFault, MoveRefusalName, refusal};
use std::alloc::Global;

/// The characters of all types that are made.
const ALL: u32 = 1 << 22;

/// What a type costs in addition to its characters.
const EACH: u32 = 16;

/// Each type costs 16 characters at least, so no more are made.
pub(crate) const TYPES: u32 = ALL / EACH + 1;

/// How many characters are left.
#[derive(Drop)]
pub(crate) struct Budget {
    left: u32,
}

impl Budget {
    pub(crate) fn whole() -> Budget {
        Budget { left: ALL }
    }

    /// Pays for a type, or the name of a field, with `len` characters.
    pub(crate) fn pay(
        &mut self,
        alloc: Global,
        len: usize,
        place: &Place<'_>,
    ) -> Result<(), MoveFault> {
        let cost = u32::try_from(len).unwrap_or(u32::MAX).saturating_add(EACH);
        match self.left.checked_sub(cost) {
            Some(left) => {
                self.left = left;
                Ok(())
            }
            None => Err(too_many(alloc, place)),
        }
    }
}

/// Refuses types that are too many.
pub(crate) fn too_many(alloc: Global, place: &Place<'_>) -> MoveFault {
    let message = "the types have more than 4194304 characters (do they ever end?): request fewer";
    refusal(alloc, MoveRefusalName::TooLarge, place, message)
}
