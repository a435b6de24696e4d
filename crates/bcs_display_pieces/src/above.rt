//! Where a value is: it is the input, or the content of a byte string in it.

use crate::patterns::INSIDE;
use crate::steps::{count_steps, put_names};
use bcs_explain::Trail;
use std::alloc::{AllocError, Global};

/// The position of a whole value.
#[derive(Drop)]
pub(crate) struct Above {
    /// The byte offset in the input at which it begins.
    pub start: u64,
    /// Its name, which the names of its parts continue; empty for the input.
    pub name: Vec<u8>,
    /// The number of steps in the name.
    pub steps: usize,
}

impl Above {
    /// The value that the whole input encodes.
    pub(crate) fn input(alloc: Global) -> Above {
        Above {
            start: 0,
            name: Vec::new(alloc),
            steps: 0,
        }
    }

    /// The value inside a byte string, which begins at offset `start` of the input.
    pub(crate) fn inside(
        &self,
        alloc: Global,
        start: u64,
        trail: &Trail<'_, '_, '_>,
    ) -> Result<Above, AllocError> {
        let mut name = Vec::new(alloc);
        put_names(self, trail, &mut name)?;
        name.extend_from_slice(INSIDE)?;
        Ok(Above {
            start,
            name,
            steps: self
                .steps
                .saturating_add(count_steps(trail))
                .saturating_add(1),
        })
    }

    /// Whether it is inside a byte string, where no PATH leads.
    pub(crate) fn is_inside(&self) -> bool {
        !self.name.is_empty()
    }

    /// The byte offset in the input of the part at this offset in the value.
    pub(crate) fn place(&self, place: u64) -> u64 {
        // This never saturates: the input has fewer than 2^64 bytes.
        self.start.saturating_add(place)
    }
}
