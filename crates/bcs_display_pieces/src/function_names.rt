//! Names of functions of Move: ADDRESS::MODULE::NAME, with or without <TYPES>.

use std::alloc::{AllocError, Global};

/// The number of characters of the longest name that `from-move` accepts.
pub(crate) const LONGEST_NAME: usize = 4000;

/// Whether the text names a function. Its types aren't checked.
pub(crate) fn is_function_name(name: &str) -> bool {
    let (function, types) = match name.split_once('<') {
        Some((function, types)) => (function, Some(types)),
        None => (name, None),
    };
    let mut words = function.split("::");
    let is_named = match (words.next(), words.next(), words.next(), words.next()) {
        (Some(address), Some(module), Some(name), None) => {
            is_address(address.trim()) && is_identifier(module.trim()) && is_identifier(name.trim())
        }
        _ => false,
    };
    is_named && types.is_none_or(|types| types.trim().ends_with('>'))
}

fn is_address(word: &str) -> bool {
    match word.strip_prefix("0x") {
        Some(digits) => {
            !digits.is_empty()
                && digits
                    .as_bytes()
                    .iter()
                    .all(|digit| digit.is_ascii_hexdigit())
        }
        None => false,
    }
}

/// Whether modules, types and functions may have this name.
pub(crate) fn is_identifier(word: &str) -> bool {
    match word.as_bytes().first() {
        Some(first) => !first.is_ascii_digit()
            && word.as_bytes().iter().all(|byte| is_of_word(*byte)),
        None => false,
    }
}

fn is_of_word(byte: u8) -> bool {
    byte.is_ascii_alphanumeric() || byte == b'_'
}

/// A name such that equal functions have equal ones: without spaces, and with addresses as numbers.
pub(crate) fn compared_name(alloc: Global, name: &[u8]) -> Result<Vec<u8>, AllocError> {
    let mut compared = Vec::new(alloc);
    let mut word = Vec::new(alloc);
    for byte in name {
        if is_of_word(*byte) {
            word.push(*byte)?;
        } else {
            put_word(&word, &mut compared)?;
            word.clear();
            if *byte != b' ' {
                compared.push(*byte)?;
            }
        }
    }
    put_word(&word, &mut compared)?;
    Ok(compared)
}

// Only addresses begin with a digit.
fn put_word(word: &[u8], out: &mut Vec<u8>) -> Result<(), AllocError> {
    let Some(digits) = word.strip_prefix(b"0x") else {
        return out.extend_from_slice(word);
    };
    out.extend_from_slice(b"0x")?;
    let zeros = digits
        .iter()
        .position(|digit| *digit != b'0')
        .unwrap_or(digits.len());
    for digit in digits.iter().skip(zeros) {
        out.push(digit.to_ascii_lowercase())?;
    }
    Ok(())
}
