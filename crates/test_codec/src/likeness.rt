//! Rows on equality of values, their depth and their number of nodes.

use crate::setting::Setting;
use crate::value_words::{value_of, values_of};
use bcs_value::{Value, depth, nodes, same};
use std::alloc::Global;
use test_rows::row_fault::RowFault;

pub(crate) fn answer(
    alloc: Global,
    setting: &Setting,
    question: &str,
    words: &[&str],
) -> Result<String, RowFault> {
    match (question, words) {
        ("alike", []) => alike(alloc, setting.values.as_str()),
        ("size", [text]) => size(alloc, text),
        _ => Err(RowFault::NotUnderstood),
    }
}

// For each value, the positions of the values that are the same.
fn alike(alloc: Global, text: &str) -> Result<String, RowFault> {
    let values = values_of(alloc, text)?;
    let mut answer = String::new(alloc);
    for value in &values {
        if !answer.is_empty() {
            answer.push_str(" ")?;
        }
        push_places(alloc, &values, value, &mut answer)?;
    }
    Ok(answer)
}

fn push_places(
    alloc: Global,
    values: &[Value],
    value: &Value,
    answer: &mut String,
) -> Result<(), RowFault> {
    let copy = value.copy(alloc)?;
    let mut before = "";
    for (place, other) in values.iter().enumerate() {
        if is_alike(value, &copy, other)? {
            answer.push_str(format!(in alloc; "{before}{place}")?.as_str())?;
            before = ",";
        }
    }
    Ok(())
}

// Whether a value is the same as another. Its copy must agree.
fn is_alike(value: &Value, copy: &Value, other: &Value) -> Result<bool, RowFault> {
    let is_same = same(value, other);
    if same(other, value) != is_same {
        return Err(RowFault::Disagreement("same"));
    }
    if same(copy, other) != is_same {
        return Err(RowFault::Disagreement("copy"));
    }
    Ok(is_same)
}

fn size(alloc: Global, text: &str) -> Result<String, RowFault> {
    let value = value_of(alloc, text)?;
    let copy = value.copy(alloc)?;
    measured(alloc, &value, &copy)
}

fn measured(alloc: Global, value: &Value, copy: &Value) -> Result<String, RowFault> {
    if depth(copy) != depth(value) || nodes(copy) != nodes(value) || !same(copy, value) {
        return Err(RowFault::Disagreement("copy"));
    }
    Ok(format!(in alloc; "{} {}", depth(value), nodes(value))?)
}
