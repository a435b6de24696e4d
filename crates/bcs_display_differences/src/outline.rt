//! The parts of a value: where each begins and ends, without names.

use std::alloc::{AllocError, Global};

/// What the first piece of a part says about it.
#[derive(Clone, Copy, Debug, PartialEq, Eq)]
pub(crate) enum Shape {
    /// It has no piece of its own, only parts.
    Fixed,
    Scalar,
    Text,
    Bytes,
    List,
    Map,
    Option,
    Variant,
}

/// A part that has at least one byte.
#[derive(Clone, Copy)]
pub(crate) struct Part {
    pub shape: Shape,
    /// The number in its first piece: a length, a variant's number, or 1 for an option with a value.
    pub number: u32,
    pub start: usize,
    pub end: usize,
    /// Where the content of a string begins, after its length.
    pub content: usize,
    /// The number of steps in its name.
    pub depth: usize,
    pub is_key: bool,
    /// The index of the next part that isn't inside it.
    pub past: usize,
}

impl Part {
    /// Where its last own piece begins.
    pub(crate) fn spot(&self) -> usize {
        if self.content < self.end {
            self.content
        } else {
            self.start
        }
    }

    pub(crate) fn size(&self) -> usize {
        self.end.saturating_sub(self.start)
    }
}

/// The parts of a value in the order of its bytes, each before those inside it.
#[derive(Clone, Copy)]
pub(crate) struct Outline<'v> {
    pub bytes: &'v [u8],
    pub parts: &'v [Part],
}

impl<'v> Outline<'v> {
    /// The bytes of a part.
    pub(crate) fn bytes_of(&self, part: usize) -> &'v [u8] {
        match self.parts.get(part) {
            Some(part) => between(self.bytes, part.start, part.end),
            None => b"",
        }
    }

    /// The bytes of a string, without its length.
    pub(crate) fn content_of(&self, part: &Part) -> &'v [u8] {
        between(self.bytes, part.content, part.end)
    }

    /// The parts directly inside a part.
    pub(crate) fn inside(&self, alloc: Global, part: usize) -> Result<Vec<usize>, AllocError> {
        let mut inside = Vec::new(alloc);
        let Some(outer) = self.parts.get(part) else {
            return Ok(inside);
        };
        let mut next = part.saturating_add(1);
        for _ in part..outer.past {
            match self.parts.get(next) {
                Some(inner) if next < outer.past => {
                    inside.push(next)?;
                    next = inner.past;
                }
                _ => break,
            }
        }
        Ok(inside)
    }
}

fn between(bytes: &[u8], start: usize, end: usize) -> &[u8] {
    bytes.get(start..end).unwrap_or(b"")
}
