//! The containers and variants that have formats, and the position of a format in one.

use bcs_display_refusal::{Definition, Location};
use std::alloc::{AllocError, Global};

/// A container, or a variant of one.
#[derive(Clone, Copy)]
pub(crate) struct Owner<'a> {
    /// The container's name.
    pub(crate) container: &'a str,
    /// The number and the name of the variant, if it is one.
    pub(crate) variant: Option<(u32, &'a str)>,
}

/// The position of a format in its owner.
#[derive(Clone, Copy)]
pub(crate) enum Slot<'a> {
    /// It is the only one, or none is meant.
    Whole,
    /// The element of a tuple with this index, from 0.
    Numbered(usize),
    /// The format of the field of this name.
    Field(&'a str),
}

impl Owner<'_> {
    /// The location of a format in the owner.
    pub(crate) fn location(self, alloc: Global, slot: Slot<'_>) -> Result<Location, AllocError> {
        let variant = match self.variant {
            Some((number, name)) => Some((number, String::from_str(alloc, name)?)),
            None => None,
        };
        Ok(Location::Definition(Definition {
            container: String::from_str(alloc, self.container)?,
            variant,
            slot: slot.owned(alloc)?,
        }))
    }
}

impl Slot<'_> {
    fn owned(self, alloc: Global) -> Result<bcs_display_refusal::Slot, AllocError> {
        Ok(match self {
            Slot::Whole => bcs_display_refusal::Slot::Whole,
            Slot::Numbered(number) => bcs_display_refusal::Slot::Numbered(number),
            Slot::Field(name) => bcs_display_refusal::Slot::Field(String::from_str(alloc, name)?),
        })
    }
}
