//! The first invalid step of PATH.

use bcs_decode_parts::{PathFault, read_path};
use bcs_display_mistakes::{PREFIX, has_prefix};
use bcs_display_refusal::{Location, Refusal};
use std::alloc::{AllocError, Global};

/// The first invalid step of PATH, and what is expected there. `None`: each step is valid.
pub fn path_refusal(alloc: Global, word: &str) -> Result<Option<Refusal>, AllocError> {
    let mut number: u64 = 0;
    for text in word.split('/') {
        number = number.saturating_add(1);
        if !is_step(alloc, text)? {
            return Ok(Some(bad_step(alloc, number, text)?));
        }
    }
    Ok(None)
}

// Whether the text is a path of one step. The path of no step, `.`, isn't.
fn is_step(alloc: Global, text: &str) -> Result<bool, AllocError> {
    match read_path(alloc, text) {
        Ok(path) => Ok(path.len() == 1),
        Err(PathFault::BadPath) => Ok(false),
        Err(PathFault::OutOfMemory) => Err(AllocError),
    }
}

fn bad_step(alloc: Global, number: u64, text: &str) -> Result<Refusal, AllocError> {
    let words = if text.is_empty() {
        "an empty step"
    } else {
        message_of(text)
    };
    let location = Location::Step(number, String::from_str(alloc, text)?);
    let message = Vec::from_slice(alloc, words.as_bytes())?;
    Ok(Refusal::of("BadPath", location, message).in_argument("PATH"))
}

const NAMED: &str =
    "expected a number, inner, or key: and hexadecimal digits; a name such as .a[0] belongs to --name, or to a call by name";

// What is wrong with an invalid step that isn't empty.
fn message_of(text: &str) -> &'static str {
    match text.strip_prefix("key:") {
        Some(digits) if has_prefix(digits.as_bytes()) => PREFIX,
        _ if text.len() > 1 && text.starts_with('.') => NAMED,
        _ => "expected a number, inner, or key: and hexadecimal digits",
    }
}
