//! The lines that request views of an explanation.

use bcs_display_pieces::{ViewKind, ViewText};
use std::alloc::{AllocError, Global};

/// The views that lines request. Empty ones are skipped. `None`: a line requests no view.
pub(crate) fn read_lines(alloc: Global, text: &str) -> Result<Option<Vec<ViewText>>, AllocError> {
    let mut views = Vec::new(alloc);
    for line in text.split('\n') {
        if !line.is_empty() {
            let Some(view) = read_line(alloc, line)? else {
                return Ok(None);
            };
            views.push(view)?;
        }
    }
    Ok(Some(views))
}

// The view that a line requests, by its first word.
fn read_line(alloc: Global, line: &str) -> Result<Option<ViewText>, AllocError> {
    let Some((word, rest)) = line.split_once(' ') else {
        return Ok(None);
    };
    match ViewKind::named(word) {
        Some(kind) => Ok(Some(ViewText::new(alloc, kind, rest)?)),
        None => Ok(None),
    }
}
