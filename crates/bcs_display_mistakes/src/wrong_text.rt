//! What is wrong with text that should represent bytes.

use bcs_display_refusal::{Location, Refusal};
use std::alloc::{AllocError, Global};

/// Where such text is wrong, and how.
#[derive(Clone, Copy)]
pub struct WrongText {
    /// The first wrong byte. `None`: the text as a whole is wrong.
    pub place: Option<usize>,
    pub words: &'static str,
}

/// Where an input after this many blanks has this fault.
pub fn input_refusal(
    alloc: Global,
    blanks: usize,
    fault: &'static str,
    wrong: WrongText,
) -> Result<Refusal, AllocError> {
    let location = match wrong.place {
        Some(place) => Location::Byte(blanks.saturating_add(place) as u64),
        None => Location::WholeInput,
    };
    let message = Vec::from_slice(alloc, wrong.words.as_bytes())?;
    Ok(Refusal::of(fault, location, message))
}
