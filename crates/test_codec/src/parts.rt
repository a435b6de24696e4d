//! Rows on parts of encodings.

use crate::question::Question;
use crate::setting::Setting;
use bcs_decode::{Part, Stop, part};
use bcs_decode_parts::{PathStep, read_path, steps_of};
use std::alloc::Global;
use test_rows::row_fault::RowFault;
use test_rows::words::{bytes, word_of};

pub(crate) fn answer(alloc: Global, setting: &Setting, words: &[&str]) -> Result<String, RowFault> {
    let [format, input, path, limits @ ..] = words else {
        return Err(RowFault::NotUnderstood);
    };
    let asked = Question::read(alloc, &setting.registry, format, limits)?;
    let input = bytes(alloc, input)?;
    let path = read_path(alloc, path)?;
    led(alloc, &asked, &input, &path)
}

// The part that the steps lead to, or where and why the bytes stop being a value.
fn led(
    alloc: Global,
    question: &Question,
    input: &[u8],
    path: &[PathStep],
) -> Result<String, RowFault> {
    let Question {
        registry,
        format,
        limits,
    } = question;
    let steps = steps_of(alloc, path)?;
    match part(registry, format, limits, input, &steps) {
        Ok(Some(part)) => found(alloc, input, part),
        Ok(None) => Ok(String::from_str(alloc, "none")?),
        Err(Stop { reason, place }) => Ok(format!(in alloc; "{reason} at {place}")?),
    }
}

// The bytes of the part, after checking that they are those of the input at its place.
fn found(alloc: Global, input: &[u8], part: Part<'_>) -> Result<String, RowFault> {
    let Part { bytes, place } = part;
    match input.get(place..) {
        Some(rest) if rest.starts_with(bytes) => {
            let word = word_of(alloc, bytes)?;
            Ok(format!(in alloc; "{word} at {place}")?)
        }
        _ => Err(RowFault::Disagreement("the place")),
    }
}
