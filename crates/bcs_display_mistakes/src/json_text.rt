//! Text that isn't JSON.

use crate::json_mistakes::Mistake;
use crate::json_scan::first_mistake;
use bcs_display_refusal::{Location, Refusal};
use std::alloc::Global;

/// The first mistake in text that isn't JSON.
pub fn json_mistake(alloc: Global, text: &[u8]) -> Mistake {
    first_mistake(alloc, text).unwrap_or(Mistake::at_start("this isn't JSON"))
}

impl Mistake {
    /// The refusal of a text with this mistake, with the line and the column. `None` if an allocation fails.
    pub fn refusal(self, alloc: Global, text: &[u8]) -> Option<Refusal> {
        let message = Vec::from_slice(alloc, self.words.as_bytes()).ok()?;
        let (line, column) = self.line_and_column(text);
        Some(Refusal::of("NotJson", Location::Line(line, column), message))
    }

    /// The line and the column of this mistake in the text, from 1.
    pub fn line_and_column(self, text: &[u8]) -> (u64, u64) {
        line_and_column_of(text, self.place)
    }
}

fn line_and_column_of(text: &[u8], place: usize) -> (u64, u64) {
    let before = text.get(..place).unwrap_or(text);
    let lines = before.iter().filter(|byte| **byte == b'\n').count();
    let column = match before.iter().rposition(|byte| *byte == b'\n') {
        Some(end) => place.saturating_sub(end),
        None => place.saturating_add(1),
    };
    ((lines as u64).saturating_add(1), column as u64)
}
