//! Reads names.
ghost use Rattle.std.specs.Prelude.{◌≡◌, Some, None, Err, IfOk};
ghost use Rattle.bcs_part_names.specs.Names.{bracketed, coloned, head_step, in_brackets, key_of, labelled, name_steps, number_of, steps_of};
ghost use Rattle.bcs_part_names.specs.Names.{field, variant};
ghost use Rattle.bcs_part_names.specs.NameSteps.{all_named, named};

use crate::lexing::{closed_len, label_len};
use crate::name_step::NameStep;
use bcs_decode_parts::PathFault;
use bcs_num::{Width, parse_unsigned};
use hex::FromHexError;
use std::alloc::{AllocError, Global};

/// Reads a name: `.` for the whole value, and otherwise steps, as `explain` prints them. `BadPath`: the text isn't a name.
pub fn read_name(alloc: Global, name: &str) -> Result<Vec<NameStep<'_>>, PathFault>
    ensures ok { IfOk result (λ steps. name_steps name.now ≡ Some (all_named steps.items)) }
    ensures bad { result ≡ Err PathFault.BadPath → name_steps name.now ≡ None }
{
    let text = name.as_bytes();
    if text.is_empty() {
        return Err(PathFault::BadPath);
    }
    if text == b".".as_slice() {
        return Ok(Vec::new(alloc));
    }
    all_steps(alloc, text)
}

/// The index of the first invalid step of a text that isn't a name, and the text from there on.
pub fn wrong_step(alloc: Global, text: &str) -> Result<(usize, &[u8]), AllocError> {
    let mut rest = text.as_bytes();
    // Each step is at least one byte long.
    for index in 0..text.len() {
        match first_step(alloc, rest) {
            Ok((_, behind)) => rest = behind,
            Err(PathFault::BadPath) => return Ok((index, rest)),
            Err(PathFault::OutOfMemory) => return Err(AllocError),
        }
    }
    Ok((0, rest))
}

fn all_steps(alloc: Global, text: &[u8]) -> Result<Vec<NameStep<'_>>, PathFault>
    ensures ok { IfOk result (λ steps. steps_of text.now ≡ Some (all_named steps.items)) }
    ensures bad { result ≡ Err PathFault.BadPath → steps_of text.now ≡ None }
{
    let mut steps = Vec::new(alloc);
    let mut rest = text;
    while !rest.is_empty() {
        let (step, behind) = first_step(alloc, rest)?;
        steps.push(step)?;
        rest = behind;
    }
    Ok(steps)
}

// The first step of `text`, and the text after it.
fn first_step<'t>(alloc: Global, text: &'t [u8]) -> Result<(NameStep<'t>, &'t [u8]), PathFault>
    ensures ok { IfOk result (λ r. head_step text.now ≡ Some (named r.0, r.1.now)) }
    ensures bad { result ≡ Err PathFault.BadPath → head_step text.now ≡ None }
{
    let Some((first, rest)) = text.split_first() else {
        return Err(PathFault::BadPath);
    };
    match *first {
        b'.' => first_field(rest),
        b':' => first_variant(rest),
        b'?' => Ok((NameStep::Inside, rest)),
        b'[' => first_bracketed(alloc, rest),
        _ => Err(PathFault::BadPath),
    }
}

fn first_field(text: &[u8]) -> Result<(NameStep<'_>, &[u8]), PathFault>
    ensures ok { IfOk result (λ r. labelled field text.now ≡ Some (named r.0, r.1.now)) }
    ensures bad { result ≡ Err PathFault.BadPath → labelled field text.now ≡ None }
{
    let size = label_len(text);
    if size == 0 {
        return Err(PathFault::BadPath);
    }
    let (label, rest) = text.split_at(size);
    Ok((NameStep::Field(label), rest))
}

fn first_variant(text: &[u8]) -> Result<(NameStep<'_>, &[u8]), PathFault>
    ensures ok { IfOk result (λ r. coloned text.now ≡ Some (named r.0, r.1.now)) }
    ensures bad { result ≡ Err PathFault.BadPath → coloned text.now ≡ None }
{
    let Some((b':', behind)) = text.split_first() else {
        return Err(PathFault::BadPath);
    };
    let size = label_len(behind);
    if size == 0 {
        return Err(PathFault::BadPath);
    }
    let (label, rest) = behind.split_at(size);
    Ok((NameStep::Variant(label), rest))
}

fn first_bracketed<'t>(alloc: Global, text: &'t [u8]) -> Result<(NameStep<'t>, &'t [u8]), PathFault>
    ensures ok { IfOk result (λ r. bracketed text.now ≡ Some (named r.0, r.1.now)) }
    ensures bad { result ≡ Err PathFault.BadPath → bracketed text.now ≡ None }
{
    let size = closed_len(text);
    if size >= text.len() {
        return Err(PathFault::BadPath);
    }
    let (content, _) = text.split_at(size);
    let (_, rest) = text.split_at(size + 1);
    Ok((step_in_brackets(alloc, content)?, rest))
}

fn step_in_brackets<'t>(alloc: Global, content: &[u8]) -> Result<NameStep<'t>, PathFault>
    ensures ok { IfOk result (λ s. in_brackets content.now ≡ Some (named s)) }
    ensures bad { result ≡ Err PathFault.BadPath → in_brackets content.now ≡ None }
{
    if let Some(digits) = content.strip_prefix(b"key:") {
        return key_step(alloc, digits);
    }
    if let Some(digits) = content.strip_prefix(b"value ") {
        return Ok(NameStep::EntryValue(number(digits)?));
    }
    if let Some(digits) = content.strip_prefix(b"key ") {
        return Ok(NameStep::EntryKey(number(digits)?));
    }
    Ok(NameStep::Item(number(content)?))
}

fn key_step<'t>(alloc: Global, digits: &[u8]) -> Result<NameStep<'t>, PathFault>
    ensures ok { IfOk result (λ s. key_of digits.now ≡ Some (named s)) }
    ensures bad { result ≡ Err PathFault.BadPath → key_of digits.now ≡ None }
{
    match hex::decode(alloc, digits) {
        Ok(bytes) => {
            let Ok(exact) = hex::encode(alloc, bytes.as_slice()) else {
                return Err(PathFault::OutOfMemory);
            };
            if exact.as_bytes() == digits {
                Ok(NameStep::Key(bytes))
            } else {
                Err(PathFault::BadPath)
            }
        }
        Err(FromHexError::OutOfMemory) => Err(PathFault::OutOfMemory),
        Err(
            FromHexError::OddLength
            | FromHexError::InvalidHexCharacter { .. }
            | FromHexError::InvalidStringLength,
        ) => Err(PathFault::BadPath),
    }
}

// A plain decimal number below 2^64.
fn number(digits: &[u8]) -> Result<u64, PathFault>
    ensures ok { IfOk result (λ n. number_of digits.now ≡ Some n) }
    ensures bad { result ≡ Err PathFault.BadPath → number_of digits.now ≡ None }
{
    let Ok(text) = str::from_utf8(digits) else {
        return Err(PathFault::BadPath);
    };
    match parse_unsigned(Width::W8, text) {
        Some(number) => Ok(number as u64),
        None => Err(PathFault::BadPath),
    }
}
