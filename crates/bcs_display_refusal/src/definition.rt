//! A definition in a registry.

use crate::names::Spelling;
use std::alloc::AllocError;

/// A container of a registry, or a variant of one, or a format in one.
#[derive(Debug, Drop)]
pub struct Definition {
    pub container: String,
    /// The number and the name of a variant.
    pub variant: Option<(u32, String)>,
    pub slot: Slot,
}

/// The position of a format in its container or variant.
#[derive(Debug, Drop)]
pub enum Slot {
    /// It is the only one, or none is meant.
    Whole,
    /// The element of a tuple with this index, from 0.
    Numbered(usize),
    /// The format of the field of this name.
    Field(String),
}

impl Definition {
    /// Appends the text: `Shape, variant 2 Circle, field side`.
    pub(crate) fn put(&self, spelling: Spelling, out: &mut Vec<u8>) -> Result<(), AllocError> {
        spelling.put(self.container.as_str(), out)?;
        if let Some((number, name)) = &self.variant {
            let words = format!(in *out.allocator(); ", variant {number} ")?;
            out.extend_from_slice(words.as_bytes())?;
            spelling.put(name.as_str(), out)?;
        }
        match &self.slot {
            Slot::Whole => Ok(()),
            Slot::Numbered(number) => {
                let words = format!(in *out.allocator(); ", number {number}")?;
                out.extend_from_slice(words.as_bytes())
            }
            Slot::Field(name) => {
                out.extend_from_slice(b", field ")?;
                spelling.put(name.as_str(), out)
            }
        }
    }
}
