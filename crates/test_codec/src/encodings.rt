//! Rows on encoding.
ghost use Rattle.std.specs.Prelude.{◌≤◌};

use crate::question::Question;
use crate::setting::Setting;
use crate::value_words::value_of;
use bcs_decode::{DecodeFault, decode_slice};
use bcs_encode::{EncodeFault, WriteFault, canonicalise, encode, encode_by_entries, write};
use bcs_io::ByteSink;
use bcs_io::pieces::PieceSink;
use bcs_json::{PrintFault, print_value};
use bcs_value::{Value, same};
use std::alloc::Global;
use test_rows::row_fault::{RowFault, agree, granted};
use test_rows::words::{bytes, call, number, word_of};

/// The encoding of a value, or why it has none.
type Encoded = Result<Vec<u8>, EncodeFault>;

/// `quiet_value` makes calls that shouldn't allocate. `stand_value` does the same work without these calls, for
/// comparison.
pub(crate) fn answer(
    alloc: Global,
    setting: &Setting,
    question: &str,
    words: &[&str],
) -> Result<String, RowFault> {
    let [format, value, more @ ..] = words else {
        return Err(RowFault::NotUnderstood);
    };
    let limits: &[&str] = match question {
        "deep" | "write" => &more[..0],
        _ => more,
    };
    let asked = Question::read(alloc, &setting.registry, format, limits)?;
    answered(alloc, question, &asked, &value_of(alloc, value)?, more)
}

fn answered(
    alloc: Global,
    question: &str,
    asked: &Question,
    value: &Value,
    more: &[&str],
) -> Result<String, RowFault> {
    match (question, more) {
        ("encode", _) => encoded_told(alloc, asked, value),
        ("form", _) => formed(alloc, asked, value),
        ("length", _) => counted(alloc, of_encode(alloc, asked, value)?),
        ("entries", _) => counted(alloc, of_entries(alloc, asked, value)?),
        ("deep", [expected]) => deep(alloc, asked, value, expected),
        ("write", [piece, fails]) => written(alloc, asked, value, [piece, fails]),
        ("quiet_value", _) => {
            let _ = encoded(alloc, asked, value)?;
            Ok(String::from_str(alloc, "quiet")?)
        }
        ("stand_value", _) => Ok(String::from_str(alloc, "quiet")?),
        _ => Err(RowFault::NotUnderstood),
    }
}

// The length of an encoding.
fn counted(alloc: Global, encoded: Encoded) -> Result<String, RowFault> {
    match encoded {
        Ok(bytes) => Ok(format!(in alloc; "{} bytes", bytes.len())?),
        Err(fault) => Ok(format!(in alloc; "{fault}")?),
    }
}

// Checks that all encoders return the same bytes, which are too many to print.
fn deep(
    alloc: Global,
    question: &Question,
    value: &Value,
    expected: &str,
) -> Result<String, RowFault> {
    let Ok(encoded) = encoded(alloc, question, value)? else {
        return Err(RowFault::Disagreement("encode"));
    };
    agree(encoded == bytes(alloc, expected)?, "encode")?;
    Ok(format!(in alloc; "{} bytes", encoded.len())?)
}

// Writes to a sink with room for 64 bytes, which accepts `piece` bytes per call and fails from call `fails` on.
fn written(
    alloc: Global,
    question: &Question,
    value: &Value,
    [piece, fails]: [&str; 2],
) -> Result<String, RowFault> {
    let Question {
        registry,
        format,
        limits,
    } = question;
    let piece = (number(piece)? as usize).max(1);
    let mut sink = PieceSink::<64>::new(piece, call(fails)?);
    let written = write(alloc, registry, format, limits, value, &mut sink);
    let taken = word_of(alloc, sink.taken())?;
    let failed = if sink.failed() { ", failed" } else { "" };
    let told = match written {
        Ok(count) => format!(in alloc; "{count} {taken}{failed}"),
        Err(WriteFault::Write { written }) => {
            format!(in alloc; "Write {written} {taken}{failed}")
        }
        Err(WriteFault::Encode(fault)) => format!(in alloc; "Encode {fault} {taken}{failed}"),
    };
    Ok(told?)
}

// The `Debug` output of the canonical form.
fn formed(alloc: Global, question: &Question, value: &Value) -> Result<String, RowFault> {
    match form_of(alloc, question, value)? {
        Ok(form) => Ok(format!(in alloc; "{form:?}")?),
        Err(fault) => Ok(format!(in alloc; "{fault}")?),
    }
}

fn encoded_told(alloc: Global, question: &Question, value: &Value) -> Result<String, RowFault> {
    match encoded(alloc, question, value)? {
        Ok(bytes) => word_of(alloc, &bytes),
        Err(fault) => Ok(format!(in alloc; "{fault}")?),
    }
}

// The result of `encode`, after checking that all other calls agree with it.
fn encoded(alloc: Global, question: &Question, value: &Value) -> Result<Encoded, RowFault> {
    let encoded = of_encode(alloc, question, value)?;
    agree_on(alloc, question, value, &encoded)?;
    Ok(encoded)
}

fn agree_on(
    alloc: Global,
    question: &Question,
    value: &Value,
    encoded: &Encoded,
) -> Result<(), RowFault> {
    let is_same = of_entries(alloc, question, value)? == *encoded;
    agree(is_same, "encode_by_entries")?;
    let is_same = of_form(alloc, question, value)? == *encoded;
    agree(is_same, "canonicalise")?;
    let is_same = of_write(alloc, question, value)? == *encoded;
    agree(is_same, "write")?;
    let refused = match encoded {
        Ok(bytes) => {
            agree(is_decoded(alloc, question, value, bytes)?, "decode_slice")?;
            None
        }
        Err(fault) => Some(*fault),
    };
    agree(is_printed(alloc, question, value, refused)?, "print_value")
}

fn of_encode(alloc: Global, question: &Question, value: &Value) -> Result<Encoded, RowFault> {
    let Question {
        registry,
        format,
        limits,
    } = question;
    let encoded = encode(alloc, registry, format, limits, value);
    granted(encoded, EncodeFault::OutOfMemory)
}

fn of_entries(alloc: Global, question: &Question, value: &Value) -> Result<Encoded, RowFault> {
    let Question {
        registry,
        format,
        limits,
    } = question;
    let encoded = encode_by_entries(alloc, registry, format, limits, value);
    granted(encoded, EncodeFault::OutOfMemory)
}

// The result of `canonicalise`, after checking that it is the same value.
fn form_of(
    alloc: Global,
    question: &Question,
    value: &Value,
) -> Result<Result<Value, EncodeFault>, RowFault> {
    let Question {
        registry,
        format,
        limits,
    } = question;
    let form = canonicalise(alloc, registry, format, limits, value);
    let form = granted(form, EncodeFault::OutOfMemory)?;
    agree(!matches!(&form, Ok(form) if !same(form, value)), "same")?;
    Ok(form)
}

// The encoding of the canonical form.
fn of_form(alloc: Global, question: &Question, value: &Value) -> Result<Encoded, RowFault> {
    match form_of(alloc, question, value)? {
        Ok(form) => of_encode(alloc, question, &form),
        Err(fault) => Ok(Err(fault)),
    }
}

// The result of `write` with a sink that accepts one byte per call. On a fault, the sink must have received nothing.
fn of_write(alloc: Global, question: &Question, value: &Value) -> Result<Encoded, RowFault> {
    let Question {
        registry,
        format,
        limits,
    } = question;
    let mut sink = PieceSink::<20000>::new(1, None);
    match write(alloc, registry, format, limits, value, &mut sink) {
        Ok(count) if count == sink.taken().len() as u64 => {
            Ok(Ok(Vec::from_slice(alloc, sink.taken())?))
        }
        Err(WriteFault::Encode(fault)) if sink.taken().is_empty() => {
            granted(Err(fault), EncodeFault::OutOfMemory)
        }
        _ => Err(RowFault::Disagreement("write")),
    }
}

// Whether the bytes decode to this value, and a copy is the same value too.
fn is_decoded(
    alloc: Global,
    question: &Question,
    value: &Value,
    bytes: &[u8],
) -> Result<bool, RowFault> {
    let Question {
        registry,
        format,
        limits,
    } = question;
    let copy = value.copy(alloc)?;
    let decoded = decode_slice(alloc, registry, format, limits, bytes);
    match granted(decoded, DecodeFault::OutOfMemory)? {
        Ok((decoded, length)) => {
            Ok(same(&decoded, value) && same(&copy, value) && length == bytes.len())
        }
        Err(_) => Ok(false),
    }
}

// Whether `print_value` agrees: a sound value has JSON unless it would nest too deep, and others are refused for the
// same reason.
fn is_printed(
    alloc: Global,
    question: &Question,
    value: &Value,
    refused: Option<EncodeFault>,
) -> Result<bool, RowFault> {
    let Question {
        registry,
        format,
        limits,
    } = question;
    let printed = print_value(alloc, registry, format, limits, value);
    let fault = granted(printed, PrintFault::OutOfMemory)?.err();
    match refused {
        Some(refused) => Ok(fault == Some(PrintFault::from(refused))),
        None => Ok(fault.is_none() || fault == Some(PrintFault::TooNested)),
    }
}
