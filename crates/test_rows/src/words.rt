//! The notation of words in rows.

use crate::row_fault::RowFault;
use bcs_value::Limits;
use std::alloc::Global;

/// Expands repetitions: `(3*ab)` becomes `ababab`, and `(3*[#])` becomes `[2][1][0]`.
pub fn unrolled(alloc: Global, row: &str) -> Result<String, RowFault> {
    let mut text = String::new(alloc);
    for (place, part) in row.split('(').enumerate() {
        if place == 0 {
            text.push_str(part)?;
        } else {
            push_repeated(alloc, &mut text, part)?;
        }
    }
    Ok(text)
}

// Appends the expansion of `count*text)` and what follows it.
fn push_repeated(alloc: Global, text: &mut String, part: &str) -> Result<(), RowFault> {
    let Some((group, rest)) = part.split_once(')') else {
        return Err(RowFault::NotUnderstood);
    };
    let Some((count, repeated)) = group.split_once('*') else {
        return Err(RowFault::NotUnderstood);
    };
    let count = number(count)?;
    for place in 0..count {
        push_numbered(alloc, text, repeated, count - 1 - place)?;
    }
    text.push_str(rest)?;
    Ok(())
}

// Appends the text with each `#` replaced by the number of repetitions that remain.
fn push_numbered(
    alloc: Global,
    text: &mut String,
    repeated: &str,
    left: u32,
) -> Result<(), RowFault> {
    for (place, part) in repeated.split('#').enumerate() {
        if place > 0 {
            text.push_str(&format!(in alloc; "{left}")?)?;
        }
        text.push_str(part)?;
    }
    Ok(())
}

/// An integer below 4294967296.
pub fn number(word: &str) -> Result<u32, RowFault> {
    match word.parse::<u32>() {
        Ok(number) => Ok(number),
        Err(_) => Err(RowFault::NotUnderstood),
    }
}

/// The number of the first call that fails, counted from 1, or none for `-`.
pub fn call(word: &str) -> Result<Option<u64>, RowFault> {
    match word {
        "-" => Ok(None),
        _ => Ok(Some(u64::from(number(word)?))),
    }
}

/// The bytes of a word: its hexadecimal digits after `0x`, or else the word itself.
pub fn bytes(alloc: Global, word: &str) -> Result<Vec<u8>, RowFault> {
    match word.strip_prefix("0x") {
        Some(digits) => Ok(hex::decode(alloc, digits)?),
        None => Ok(Vec::from_slice(alloc, word.as_bytes())?),
    }
}

/// Bytes as a word: `0x` and hexadecimal digits.
pub fn word_of(alloc: Global, bytes: &[u8]) -> Result<String, RowFault> {
    let digits = hex::encode(alloc, bytes)?;
    Ok(format!(in alloc; "0x{digits}")?)
}

/// The standard limits for no words, or a depth and a number of nodes.
pub fn limits_of(words: &[&str]) -> Option<Limits> {
    match words {
        [] => Some(Limits::standard()),
        [depth, nodes] => Limits::new(number(depth).ok()?, number(nodes).ok()?),
        _ => None,
    }
}
