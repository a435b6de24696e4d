//! Rows on numbers.

use bcs_num::{
    GREATEST_LEN, parse_signed, parse_unsigned, put_le, put_le_signed, put_uleb, take_le,
    take_le_signed, take_uleb,
};
use bcs_registry_json::format_text::format_from;
use bcs_registry_json::json_text::registry_json;
use bcs_registry_model::IntegerKind;
use std::alloc::Global;
use test_rows::row_fault::RowFault;
use test_rows::words::{bytes, number, word_of};

pub(crate) fn answer(alloc: Global, question: &str, words: &[&str]) -> Result<String, RowFault> {
    match (question, words) {
        ("uleb", [number]) => uleb(alloc, number),
        ("take_uleb", [bytes]) => uleb_taken(alloc, bytes),
        ("put", [format, number]) => put(alloc, format, number),
        ("take", [format, bytes]) => taken(alloc, format, bytes),
        ("number", [format, text]) => parsed(alloc, format, text),
        _ => Err(RowFault::NotUnderstood),
    }
}

// The ULEB128 encoding of a number.
fn uleb(alloc: Global, word: &str) -> Result<String, RowFault> {
    let mut out = [0xee; 5];
    let len = put_uleb(number(word)?, &mut out);
    word_of(alloc, &out[..len])
}

// The number that the bytes start with in ULEB128, and its length in bytes.
fn uleb_taken(alloc: Global, word: &str) -> Result<String, RowFault> {
    match take_uleb(&bytes(alloc, word)?) {
        Ok((number, len)) => Ok(format!(in alloc; "{number} in {len}")?),
        Err(fault) => Ok(format!(in alloc; "{fault}")?),
    }
}

// The integer kind of a format such as `U8` or `I128`.
fn numbers_of(alloc: Global, format: &str) -> Result<IntegerKind, RowFault> {
    let text = format!(in alloc; "\"{format}\"")?;
    let format = format_from(alloc, &registry_json(alloc, text.as_bytes())?)?;
    IntegerKind::of(&format).ok_or(RowFault::NotUnderstood)
}

// The encoding of a number at the format.
fn put(alloc: Global, format: &str, text: &str) -> Result<String, RowFault> {
    let mut out = [0xee; GREATEST_LEN];
    let len = match numbers_of(alloc, format)? {
        IntegerKind::Unsigned(width) => match parse_unsigned(width, text) {
            Some(number) => put_le(width, number, &mut out),
            None => return Err(RowFault::NotUnderstood),
        },
        IntegerKind::Signed(width) => match parse_signed(width, text) {
            Some(number) => put_le_signed(width, number, &mut out),
            None => return Err(RowFault::NotUnderstood),
        },
    };
    word_of(alloc, &out[..len])
}

// The number that the bytes start with at the format.
fn taken(alloc: Global, format: &str, word: &str) -> Result<String, RowFault> {
    let bytes = bytes(alloc, word)?;
    let taken = match numbers_of(alloc, format)? {
        IntegerKind::Unsigned(width) => match take_le(width, &bytes) {
            Ok(number) => format!(in alloc; "{number}"),
            Err(fault) => format!(in alloc; "{fault}"),
        },
        IntegerKind::Signed(width) => match take_le_signed(width, &bytes) {
            Ok(number) => format!(in alloc; "{number}"),
            Err(fault) => format!(in alloc; "{fault}"),
        },
    };
    Ok(taken?)
}

// The number of the format that has this plain decimal form.
fn parsed(alloc: Global, format: &str, text: &str) -> Result<String, RowFault> {
    let parsed = match numbers_of(alloc, format)? {
        IntegerKind::Unsigned(width) => match parse_unsigned(width, text) {
            Some(number) => format!(in alloc; "{number}"),
            None => String::from_str(alloc, "none"),
        },
        IntegerKind::Signed(width) => match parse_signed(width, text) {
            Some(number) => format!(in alloc; "{number}"),
            None => String::from_str(alloc, "none"),
        },
    };
    Ok(parsed?)
}
