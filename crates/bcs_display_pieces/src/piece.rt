//! A piece as it is printed.

use bcs_explain::Meaning;
use bcs_view_texts::MoveKind;

#[derive(Clone, Copy)]
pub(crate) struct Piece<'a> {
    /// Its byte offset in the input.
    pub place: u64,
    pub bytes: &'a [u8],
    pub meaning: Meaning<'a>,
    /// How to show it, if it is a value of Move.
    pub kind: Option<MoveKind>,
}
