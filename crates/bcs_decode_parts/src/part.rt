//! Parts of an input.

/// A part of an input, as a slice of it.
#[derive(Clone, Copy)]
pub struct Part<'a> {
    /// The encoding of the part.
    pub bytes: &'a [u8],
    /// The byte offset of the part in the input.
    pub place: usize,
}
