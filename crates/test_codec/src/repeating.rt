//! Rows that repeat a call, so that its time can be measured from outside.

use crate::question::Question;
use crate::setting::Setting;
use crate::texts::{bytes_of, value_of};
use bcs_decode::{decode_all, decode_slice, scan};
use bcs_encode::{canonicalise, encode, encode_by_entries};
use bcs_io::SliceSource;
use bcs_value::Value;
use std::alloc::Global;
use test_rows::row_fault::{RowFault, agree};
use test_rows::words::number;

pub(crate) fn answer(alloc: Global, setting: &Setting, words: &[&str]) -> Result<String, RowFault> {
    let [call, count, format, text] = words else {
        return Err(RowFault::NotUnderstood);
    };
    let asked = Question::read(alloc, &setting.registry, format, &[])?;
    let Ok(value) = value_of(alloc, &asked, text.as_bytes())? else {
        return Err(RowFault::NotUnderstood);
    };
    let Ok(bytes) = bytes_of(alloc, &asked, text.as_bytes())? else {
        return Err(RowFault::NotUnderstood);
    };
    repeated(alloc, call, number(count)?, &asked, &value, &bytes)
}

fn repeated(
    alloc: Global,
    call: &str,
    count: u32,
    asked: &Question,
    value: &Value,
    bytes: &[u8],
) -> Result<String, RowFault> {
    for _ in 0..count {
        let length = answered(alloc, call, asked, value, bytes);
        agree(length == Some(bytes.len()), "the call")?;
    }
    Ok(format!(in alloc; "{} bytes", bytes.len())?)
}

// The length of the encoding that the call worked on, or `None` if the call is unknown or failed.
fn answered(
    alloc: Global,
    call: &str,
    asked: &Question,
    value: &Value,
    bytes: &[u8],
) -> Option<usize> {
    match call {
        "encode" | "entries" | "canonicalise" => encoded(alloc, call, asked, value, bytes.len()),
        _ => decoded(alloc, call, asked, bytes),
    }
}

fn encoded(
    alloc: Global,
    call: &str,
    asked: &Question,
    value: &Value,
    length: usize,
) -> Option<usize> {
    let Question {
        registry,
        format,
        limits,
    } = asked;
    match call {
        "encode" => Some(encode(alloc, registry, format, limits, value).ok()?.len()),
        "entries" => Some(
            encode_by_entries(alloc, registry, format, limits, value)
                .ok()?
                .len(),
        ),
        _ => match canonicalise(alloc, registry, format, limits, value) {
            Ok(_) => Some(length),
            Err(_) => None,
        },
    }
}

fn decoded(alloc: Global, call: &str, asked: &Question, bytes: &[u8]) -> Option<usize> {
    let Question {
        registry,
        format,
        limits,
    } = asked;
    match call {
        "scan" => scan(registry, format, limits, bytes).ok(),
        "decode_slice" => match decode_slice(alloc, registry, format, limits, bytes) {
            Ok((_, length)) => Some(length),
            Err(_) => None,
        },
        "decode_all" => {
            let mut source = SliceSource::new(bytes);
            match decode_all(alloc, registry, format, limits, &mut source) {
                Ok(_) => Some(bytes.len()),
                Err(_) => None,
            }
        }
        _ => None,
    }
}
