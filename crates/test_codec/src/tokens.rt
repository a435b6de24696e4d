//! Rows on JSON that is read both from tokens and through a tree.

use crate::question::Question;
use crate::setting::Setting;
use crate::texts::value_of;
use bcs_json::JsonFault;
use bcs_json_reader::reading::read;
use bcs_json_tokens::{GivenUp, value_of_text};
use bcs_registry_json::{NESTING_LIMIT, nests_within, read_json};
use bcs_value::{Value, same};
use std::alloc::Global;
use test_rows::row_fault::{RowFault, agree, granted};
use test_rows::words::bytes;

/// Which reading returns the value of a text, `tokens` or only the `tree`, and the fault if `read_value` refuses the
/// text. All readings that return a value return the same one.
pub(crate) fn answer(alloc: Global, setting: &Setting, words: &[&str]) -> Result<String, RowFault> {
    let [format, text, limits @ ..] = words else {
        return Err(RowFault::NotUnderstood);
    };
    let question = Question::read(alloc, &setting.registry, format, limits)?;
    let text = bytes(alloc, text)?;
    let way = way_of(alloc, &question, &text)?;
    match value_of(alloc, &question, &text)? {
        Ok(_) => Ok(String::from_str(alloc, way)?),
        Err(fault) => Ok(format!(in alloc; "{way} {fault}")?),
    }
}

fn way_of(alloc: Global, question: &Question, text: &[u8]) -> Result<&'static str, RowFault> {
    let by_tree = granted(tree_value(alloc, question, text), JsonFault::OutOfMemory)?;
    agree_with_call(alloc, question, text, &by_tree)?;
    match token_value(alloc, question, text)? {
        Some(Ok(value)) => {
            agree(is_same(&value, &by_tree), "the tree")?;
            Ok("tokens")
        }
        Some(Err(fault)) => {
            agree(is_fault(fault, &by_tree), "the tree")?;
            Ok("tree")
        }
        None => Ok("tree"),
    }
}

fn is_same(value: &Value, other: &Result<Value, JsonFault>) -> bool {
    match other {
        Ok(other) => same(value, other),
        Err(_) => false,
    }
}

fn is_fault(fault: JsonFault, other: &Result<Value, JsonFault>) -> bool {
    match other {
        Ok(_) => false,
        Err(other) => fault == *other,
    }
}

// `read_value` must agree with reading by a tree, except for faults that it checks later.
fn agree_with_call(
    alloc: Global,
    question: &Question,
    text: &[u8],
    by_tree: &Result<Value, JsonFault>,
) -> Result<(), RowFault> {
    let called = value_of(alloc, question, text)?;
    let is_so = match (&called, by_tree) {
        (Ok(value), _) => is_same(value, by_tree),
        (Err(fault), Err(other)) => *fault == *other,
        (Err(fault), Ok(_)) => matches!(
            fault,
            JsonFault::TooManyNodes | JsonFault::TooLong | JsonFault::RepeatedKey
        ),
    };
    agree(is_so, "read_value")
}

// The value read from the tokens alone, or why they are refused, unless this reading gives up.
fn token_value(
    alloc: Global,
    question: &Question,
    text: &[u8],
) -> Result<Option<Result<Value, JsonFault>>, RowFault> {
    let Question {
        registry,
        format,
        limits,
    } = question;
    match value_of_text(alloc, registry, format, limits, text) {
        Ok(value) => Ok(Some(Ok(value))),
        Err(GivenUp::Refused(refusal)) => Ok(Some(Err(Box::into_inner(refusal).fault))),
        Err(GivenUp::Unusual) => Ok(None),
        Err(GivenUp::OutOfMemory) => Err(RowFault::OutOfMemory),
    }
}

// The value read through a tree.
fn tree_value(alloc: Global, question: &Question, text: &[u8]) -> Result<Value, JsonFault> {
    let Question {
        registry,
        format,
        limits,
    } = question;
    let json = read_json(alloc, text)?;
    if !nests_within(&json, NESTING_LIMIT) {
        return Err(JsonFault::TooNested);
    }
    let value = read(alloc, registry, format, limits.depth(), json)?;
    Ok(value)
}
