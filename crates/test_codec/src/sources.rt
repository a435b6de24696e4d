//! Rows on sources that fail or are endless; and the calls that read from sources.

use crate::question::Question;
use crate::setting::Setting;
use bcs_decode::{DecodeFault, Stop, decode_all, decode_from, scan_all, scan_from};
use bcs_io::ByteSource;
use bcs_io::pieces::{PieceSource, RepeatSource};
use bcs_value::Value;
use std::alloc::{AllocError, Global};
use test_rows::row_fault::{RowFault, agree, granted};
use test_rows::words::{bytes, call};

/// A value and its length, or why there is none.
pub(crate) type Validated = Result<(Value, u64), DecodeFault>;

pub(crate) fn answer(
    alloc: Global,
    setting: &Setting,
    question: &str,
    words: &[&str],
) -> Result<String, RowFault> {
    let [format, input, fails @ ..] = words else {
        return Err(RowFault::NotUnderstood);
    };
    let asked = Question::read(alloc, &setting.registry, format, &[])?;
    answered(alloc, question, &asked, &bytes(alloc, input)?, fails)
}

fn answered(
    alloc: Global,
    question: &str,
    asked: &Question,
    input: &[u8],
    fails: &[&str],
) -> Result<String, RowFault> {
    match (question, fails, input) {
        ("failing" | "failing_front", [fails], input) => {
            of_failing(alloc, question, asked, input, call(fails)?)
        }
        ("endless", [], [byte, ..]) => of_endless(alloc, asked, *byte),
        _ => Err(RowFault::NotUnderstood),
    }
}

// Decodes a whole source, or its prefix. It provides one byte per call, and fails from call `fails` on.
fn of_failing(
    alloc: Global,
    question: &str,
    asked: &Question,
    input: &[u8],
    fails: Option<u64>,
) -> Result<String, RowFault> {
    let mut source = PieceSource::new(input, 1, fails);
    let mut other = PieceSource::new(input, 1, fails);
    let validated = if question == "failing" {
        of_whole(alloc, asked, &mut source, &mut other)
    } else {
        of_front(alloc, asked, &mut source, &mut other)
    };
    let length = length_of(validated?);
    agree(source.failed() == other.failed(), "failed")?;
    agree(source.given() == other.given(), "given")?;
    let answer = told(alloc, &length)?;
    let failed = if source.failed() { ", failed" } else { "" };
    Ok(format!(in alloc; "{answer}{failed}")?)
}

// Decodes the prefix of an endless source that repeats `byte`.
fn of_endless(alloc: Global, asked: &Question, byte: u8) -> Result<String, RowFault> {
    let mut source = RepeatSource::new(byte);
    let mut other = RepeatSource::new(byte);
    let length = length_of(of_front(alloc, asked, &mut source, &mut other)?);
    agree(source.given() == other.given(), "given")?;
    let answer = told(alloc, &length)?;
    Ok(format!(in alloc; "{answer}, {} given", source.given())?)
}

/// Decodes the prefix of a source with `decode_from`, after checking that `scan_from` agrees on an equal source.
pub(crate) fn of_front<S: ByteSource>(
    alloc: Global,
    asked: &Question,
    source: &mut S,
    other: &mut S,
) -> Result<Validated, RowFault> {
    let Question {
        registry,
        format,
        limits,
    } = asked;
    let scanned = scan_from(alloc, registry, format, limits, source);
    let decoded = decode_from(alloc, registry, format, limits, other);
    validated(scanned, decoded)
}

/// Decodes a whole source with `decode_all`, after checking that `scan_all` agrees on an equal source.
pub(crate) fn of_whole<S: ByteSource>(
    alloc: Global,
    asked: &Question,
    source: &mut S,
    other: &mut S,
) -> Result<Validated, RowFault> {
    let Question {
        registry,
        format,
        limits,
    } = asked;
    let scanned = scan_all(alloc, registry, format, limits, source);
    let decoded = decode_all(alloc, registry, format, limits, other);
    validated(scanned, decoded)
}

fn validated(
    scanned: Result<u64, DecodeFault>,
    decoded: Result<Value, DecodeFault>,
) -> Result<Validated, RowFault> {
    let scanned = granted(scanned, DecodeFault::OutOfMemory)?;
    match granted(decoded, DecodeFault::OutOfMemory)? {
        Ok(value) => match scanned {
            Ok(length) => Ok(Ok((value, length))),
            Err(_) => Err(RowFault::Disagreement("scanning")),
        },
        Err(fault) => {
            agree(scanned == Err(fault), "scanning")?;
            Ok(Err(fault))
        }
    }
}

pub(crate) fn fault_of(validated: &Validated) -> Option<DecodeFault> {
    match validated {
        Ok(_) => None,
        Err(fault) => Some(*fault),
    }
}

fn length_of(validated: Validated) -> Result<u64, DecodeFault> {
    match validated {
        Ok((_, length)) => Ok(length),
        Err(fault) => Err(fault),
    }
}

/// The length of a value, or why there is none.
pub(crate) fn told(alloc: Global, length: &Result<u64, DecodeFault>) -> Result<String, AllocError> {
    match length {
        Ok(length) => format!(in alloc; "ok {length}"),
        Err(DecodeFault::Stop(Stop { reason, place })) => format!(in alloc; "{reason} at {place}"),
        Err(fault) => format!(in alloc; "{fault}"),
    }
}
