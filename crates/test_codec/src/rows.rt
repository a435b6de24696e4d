//! Dispatches rows.

use crate::setting::Setting;
use crate::{
    encodings, fault_numbers, likeness, numbers, parts, registries, repeating, sources, streams,
    texts, tokens, values, verdicts,
};
use std::alloc::{AllocError, Global};
use test_rows::row_fault::RowFault;
use test_rows::words::unrolled;

/// The answer to a row, or why there is none.
pub(crate) fn answer(
    alloc: Global,
    setting: &mut Setting,
    row: &str,
) -> Result<String, AllocError> {
    match asked(alloc, setting, row) {
        Ok(answer) => Ok(answer),
        Err(fault) => format!(in alloc; "{fault}"),
    }
}

// A row consists of words separated by tabs. The first is the request.
fn asked(alloc: Global, setting: &mut Setting, row: &str) -> Result<String, RowFault> {
    let row = unrolled(alloc, row)?;
    let words: Vec<&str> = row.split('\t').collect(alloc)?;
    match words.as_slice() {
        [question, words @ ..] => answered(alloc, setting, question, words),
        _ => Err(RowFault::NotUnderstood),
    }
}

fn answered(
    alloc: Global,
    setting: &mut Setting,
    question: &str,
    words: &[&str],
) -> Result<String, RowFault> {
    match question {
        "uleb" | "take_uleb" | "put" | "take" | "number" => {
            numbers::answer(alloc, question, words)
        }
        "registry" | "format" | "print" | "container" | "admits" | "grows" => {
            registries::answer(alloc, setting, question, words)
        }
        "verdict" | "scan" | "changes" | "quiet" | "stand" | "quiet_slice" | "stand_slice" => {
            verdicts::answer(alloc, setting, question, words)
        }
        "failing" | "failing_front" | "endless" => sources::answer(alloc, setting, question, words),
        "part" => parts::answer(alloc, setting, words),
        "values" | "fits" | "limits" => values::answer(alloc, setting, question, words),
        "alike" | "size" => likeness::answer(alloc, setting, question, words),
        "encode"
        | "form"
        | "length"
        | "entries"
        | "deep"
        | "write"
        | "quiet_value"
        | "stand_value" => encodings::answer(alloc, setting, question, words),
        "json" | "text" | "same" | "pairs" => texts::answer(alloc, setting, question, words),
        "tokens" => tokens::answer(alloc, setting, words),
        "repeat" => repeating::answer(alloc, setting, words),
        "fault_numbers" => fault_numbers::answer(alloc, words),
        _ => streams::answer(alloc, question, words),
    }
}
