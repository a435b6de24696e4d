//! Rows on the JSON of values.

use crate::pairs::agreeing_pairs;
use crate::question::Question;
use crate::setting::Setting;
use bcs_decode::{DecodeFault, decode_slice};
use bcs_json::{
    FromFault, JsonFault, PrintFault, compare, from_bcs, normalise, print_value, read_value, to_bcs,
};
use bcs_value::Value;
use std::alloc::Global;
use test_rows::row_fault::{RowFault, agree, granted};
use test_rows::words::{bytes, word_of};

pub(crate) fn answer(
    alloc: Global,
    setting: &Setting,
    question: &str,
    words: &[&str],
) -> Result<String, RowFault> {
    let [format, texts @ ..] = words else {
        return Err(RowFault::NotUnderstood);
    };
    let [_, more @ ..] = texts else {
        return Err(RowFault::NotUnderstood);
    };
    let limits: &[&str] = match question {
        "json" | "text" => more,
        _ => &more[..0],
    };
    let asked = Question::read(alloc, &setting.registry, format, limits)?;
    answered(alloc, question, &asked, texts)
}

fn answered(
    alloc: Global,
    question: &str,
    asked: &Question,
    texts: &[&str],
) -> Result<String, RowFault> {
    match (question, texts) {
        ("json", [input, ..]) => meant(alloc, asked, &bytes(alloc, input)?),
        ("text", [input, ..]) => shown(alloc, asked, &bytes(alloc, input)?),
        ("same", [one, other]) => compared(alloc, asked, one.as_bytes(), other.as_bytes()),
        ("pairs", _) => {
            let count = agreeing_pairs(alloc, asked, texts)?;
            Ok(format!(in alloc; "{count} equal")?)
        }
        _ => Err(RowFault::NotUnderstood),
    }
}

// The bytes and the normalised JSON of a text, or the fault. Checks that all calls agree.
fn meant(alloc: Global, question: &Question, text: &[u8]) -> Result<String, RowFault> {
    match bytes_of(alloc, question, text)? {
        Ok(bytes) => {
            let normal = accepted(alloc, question, text, &bytes)?;
            let word = word_of(alloc, &bytes)?;
            Ok(format!(in alloc; "{word} {normal}")?)
        }
        Err(fault) => {
            agree_to_refuse(alloc, question, text, fault)?;
            Ok(format!(in alloc; "{fault}")?)
        }
    }
}

fn agree_to_refuse(
    alloc: Global,
    question: &Question,
    text: &[u8],
    fault: JsonFault,
) -> Result<(), RowFault> {
    let other = normal_of(alloc, question, text)?.err();
    agree(other == Some(fault), "normalise")?;
    let other = value_of(alloc, question, text)?.err();
    agree(other == Some(fault), "read_value")
}

// The normalised JSON of a text that has these bytes.
fn accepted(
    alloc: Global,
    question: &Question,
    text: &[u8],
    bytes: &[u8],
) -> Result<String, RowFault> {
    let Ok(normal) = normal_of(alloc, question, text)? else {
        return Err(RowFault::Disagreement("normalise"));
    };
    let Ok(value) = value_of(alloc, question, text)? else {
        return Err(RowFault::Disagreement("read_value"));
    };
    agree_on(alloc, question, &value, bytes, &normal)?;
    Ok(normal)
}

// Checks that the normalised JSON has the same bytes and is unchanged if it is normalised again, and that the value and
// the bytes print as this JSON.
fn agree_on(
    alloc: Global,
    question: &Question,
    value: &Value,
    bytes: &[u8],
    normal: &str,
) -> Result<(), RowFault> {
    let is_same = matches!(
        bytes_of(alloc, question, normal.as_bytes())?,
        Ok(again) if again.as_slice() == bytes
    );
    agree(is_same, "the normal text")?;
    let text = normal_of(alloc, question, normal.as_bytes())?.ok();
    agree_on_text(text, normal, "normalise")?;
    let text = text_of(alloc, question, value)?.ok();
    agree_on_text(text, normal, "print_value")?;
    let text = text_of_bytes(alloc, question, bytes)?.ok();
    agree_on_text(text, normal, "from_bcs")
}

fn agree_on_text(text: Option<String>, expected: &str, call: &'static str) -> Result<(), RowFault> {
    match text {
        Some(text) => agree(text.as_str() == expected, call),
        None => Err(RowFault::Disagreement(call)),
    }
}

pub(crate) fn bytes_of(
    alloc: Global,
    question: &Question,
    text: &[u8],
) -> Result<Result<Vec<u8>, JsonFault>, RowFault> {
    let Question {
        registry,
        format,
        limits,
    } = question;
    let bytes = to_bcs(alloc, registry, format, limits, text);
    granted(bytes, JsonFault::OutOfMemory)
}

fn normal_of(
    alloc: Global,
    question: &Question,
    text: &[u8],
) -> Result<Result<String, JsonFault>, RowFault> {
    let Question {
        registry,
        format,
        limits,
    } = question;
    let normal = normalise(alloc, registry, format, limits, text);
    granted(normal, JsonFault::OutOfMemory)
}

pub(crate) fn value_of(
    alloc: Global,
    question: &Question,
    text: &[u8],
) -> Result<Result<Value, JsonFault>, RowFault> {
    let Question {
        registry,
        format,
        limits,
    } = question;
    let value = read_value(alloc, registry, format, limits, text);
    granted(value, JsonFault::OutOfMemory)
}

fn text_of(
    alloc: Global,
    question: &Question,
    value: &Value,
) -> Result<Result<String, PrintFault>, RowFault> {
    let Question {
        registry,
        format,
        limits,
    } = question;
    let text = print_value(alloc, registry, format, limits, value);
    granted(text, PrintFault::OutOfMemory)
}

fn text_of_bytes(
    alloc: Global,
    question: &Question,
    bytes: &[u8],
) -> Result<Result<String, FromFault>, RowFault> {
    let Question {
        registry,
        format,
        limits,
    } = question;
    let text = from_bcs(alloc, registry, format, limits, bytes);
    granted(text, FromFault::OutOfMemory)
}

// The JSON of the bytes, or the fault. Checks that `print_value` also refuses a value whose JSON would nest too deep.
fn shown(alloc: Global, question: &Question, bytes: &[u8]) -> Result<String, RowFault> {
    match text_of_bytes(alloc, question, bytes)? {
        Ok(text) => Ok(text),
        Err(FromFault::Stop(stop)) => Ok(format!(in alloc; "{} at {}", stop.reason, stop.place)?),
        Err(fault) => {
            agree(is_too_nested(alloc, question, bytes)?, "print_value")?;
            Ok(format!(in alloc; "{fault}")?)
        }
    }
}

fn is_too_nested(alloc: Global, question: &Question, bytes: &[u8]) -> Result<bool, RowFault> {
    let Question {
        registry,
        format,
        limits,
    } = question;
    let decoded = decode_slice(alloc, registry, format, limits, bytes);
    match granted(decoded, DecodeFault::OutOfMemory)? {
        Ok((value, _)) => Ok(matches!(
            text_of(alloc, question, &value)?,
            Err(PrintFault::TooNested)
        )),
        Err(_) => Ok(false),
    }
}

// Whether two texts represent equal values, or the fault.
fn compared(
    alloc: Global,
    question: &Question,
    one: &[u8],
    other: &[u8],
) -> Result<String, RowFault> {
    let Question {
        registry,
        format,
        limits,
    } = question;
    match compare(alloc, registry, format, limits, one, other) {
        Ok(true) => Ok(String::from_str(alloc, "equal")?),
        Ok(false) => Ok(String::from_str(alloc, "different")?),
        Err(fault) => Ok(format!(in alloc; "{fault}")?),
    }
}
