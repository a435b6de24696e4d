//! Texts that aren't names of parts, or aren't JSON Pointers.

use crate::notation::Notation;
use crate::nowhere::at_step;
use bcs_display_refusal::{Location, Refusal};
use bcs_part_names::wrong_step;
use std::alloc::{AllocError, Global};
use std::str::from_utf8;

/// The first invalid step of a text that isn't a name: `at --name, step 1 args: BadPath: expected ..`.
pub fn wrong_name(alloc: Global, name: &str) -> Result<Refusal, AllocError> {
    let (index, rest) = wrong_step(alloc, name)?;
    let number = (index as u64).saturating_add(1);
    let expected = b"expected ., .NAME, ::NAME, ?, [NUMBER], [key:DIGITS] or [value NUMBER]";
    bad_step(alloc, Notation::Name, number, first_of(rest), expected)
}

// The text before the next step, as far as its characters show it.
fn first_of(rest: &[u8]) -> &str {
    let text = from_utf8(rest).unwrap_or("");
    if text.starts_with('[') {
        return match text.find(']') {
            Some(end) => text.get(..=end).unwrap_or(text),
            None => text,
        };
    }
    let mut is_inside = false;
    for (place, sign) in text.char_indices() {
        let is_mark = matches!(sign, '.' | ':' | '?' | '[');
        if is_mark && is_inside {
            return text.get(..place).unwrap_or(text);
        }
        is_inside = !is_mark;
    }
    text
}

/// The first step of a text that isn't a JSON Pointer.
pub fn wrong_pointer(alloc: Global, pointer: &str) -> Result<Refusal, AllocError> {
    let notation = Notation::Pointer;
    let mut number: u64 = 0;
    for step in pointer.split('/') {
        if number == 0 && !step.is_empty() {
            return bad_step(alloc, notation, 1, step, b"expected / before each step");
        }
        if has_lone_tilde(step) {
            return bad_step(
                alloc,
                notation,
                number,
                step,
                b"expected ~0 for ~, or ~1 for /",
            );
        }
        number = number.saturating_add(1);
    }
    let whole = Refusal::of("BadPath", Location::Whole, Vec::new(alloc));
    Ok(whole.in_argument(notation.argument()))
}

fn bad_step(
    alloc: Global,
    notation: Notation,
    number: u64,
    step: &str,
    expected: &[u8],
) -> Result<Refusal, AllocError> {
    let message = Vec::from_slice(alloc, expected)?;
    Ok(Refusal {
        fault: Some("BadPath"),
        ..at_step(alloc, notation, number, step, message)?
    })
}

// Whether neither 0 nor 1 follows a tilde.
fn has_lone_tilde(step: &str) -> bool {
    for (number, part) in step.split('~').enumerate() {
        if number > 0 && !part.starts_with('0') && !part.starts_with('1') {
            return true;
        }
    }
    false
}
