//! Rows on which values fit which formats.

use crate::question::Question;
use crate::setting::Setting;
use crate::value_words::values_of;
use bcs_value::{Value, fits_loosely, has_format};
use std::alloc::Global;
use test_rows::row_fault::RowFault;
use test_rows::words::limits_of;

pub(crate) fn answer(
    alloc: Global,
    setting: &mut Setting,
    question: &str,
    words: &[&str],
) -> Result<String, RowFault> {
    match (question, words) {
        ("values", [text]) => values(alloc, setting, text),
        ("fits", [format]) => fits(alloc, setting, format),
        ("limits", numbers) => limits(alloc, numbers),
        _ => Err(RowFault::NotUnderstood),
    }
}

// Sets the values for the following rows. Returns how many there are.
fn values(alloc: Global, setting: &mut Setting, text: &str) -> Result<String, RowFault> {
    setting.values = String::from_str(alloc, text)?;
    let values = values_of(alloc, text)?;
    Ok(format!(in alloc; "{}", values.len())?)
}

// A sign for each value.
fn fits(alloc: Global, setting: &Setting, format: &str) -> Result<String, RowFault> {
    let question = Question::read(alloc, &setting.registry, format, &[])?;
    let values = values_of(alloc, setting.values.as_str())?;
    signs(alloc, &question, &values)
}

fn signs(alloc: Global, question: &Question, values: &[Value]) -> Result<String, RowFault> {
    let mut signs = String::new(alloc);
    for value in values {
        signs.push_str(sign(question, value)?)?;
    }
    Ok(signs)
}

// `+` if the value fits the format, `~` if it fits only loosely, and `-` otherwise.
fn sign(question: &Question, value: &Value) -> Result<&'static str, RowFault> {
    let Question {
        registry,
        format,
        ..
    } = question;
    let is_strict = has_format(registry, format, value);
    match (is_strict, fits_loosely(registry, format, value)) {
        (true, true) => Ok("+"),
        (false, true) => Ok("~"),
        (false, false) => Ok("-"),
        (true, false) => Err(RowFault::Disagreement("fits_loosely")),
    }
}

fn limits(alloc: Global, numbers: &[&str]) -> Result<String, RowFault> {
    match limits_of(numbers) {
        Some(limits) => Ok(format!(in alloc; "{} {}", limits.depth(), limits.nodes())?),
        None => Ok(String::from_str(alloc, "none")?),
    }
}
