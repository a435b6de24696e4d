//! Strings and bytes in a line: whole, or from the first byte that differs.

use bcs_display_text::columns::put_hex;
use bcs_display_text::escaping::put_escaped;
use std::alloc::AllocError;

/// The number of bytes that are shown.
const MOST_BYTES: usize = 32;

/// The number of characters that are shown of a string, as it is escaped.
const MOST_CHARACTERS: usize = 60;

const CUT: &[u8] = b"...";

/// Appends hexadecimal digits: all, or `MOST_BYTES` bytes from `from` on.
pub(crate) fn put_bytes(bytes: &[u8], from: usize, out: &mut Vec<u8>) -> Result<(), AllocError> {
    if bytes.len() <= MOST_BYTES {
        return put_hex(bytes, out);
    }
    if from > 0 {
        out.extend_from_slice(CUT)?;
    }
    let rest = bytes.get(from..).unwrap_or(b"");
    let (shown, more) = rest.split_at(MOST_BYTES.min(rest.len()));
    put_hex(shown, out)?;
    if more.is_empty() {
        return Ok(());
    }
    out.extend_from_slice(CUT)
}

/// Appends a string in quotes: all of it, or `MOST_CHARACTERS` from the character that has the byte `from`.
pub(crate) fn put_text(text: &str, from: usize, out: &mut Vec<u8>) -> Result<(), AllocError> {
    let start = out.len();
    if put_characters(text, out)? {
        return Ok(());
    }
    out.truncate(start);
    let first = character_at(text, from);
    if first > 0 {
        out.extend_from_slice(CUT)?;
    }
    if !put_characters(text.get(first..).unwrap_or(""), out)? {
        out.extend_from_slice(CUT)?;
    }
    Ok(())
}

// Appends the first characters in quotes, and returns whether these are all.
fn put_characters(text: &str, out: &mut Vec<u8>) -> Result<bool, AllocError> {
    out.push(b'"')?;
    let most = out.len().saturating_add(MOST_CHARACTERS);
    let mut is_whole = true;
    for (index, character) in text.char_indices() {
        let before = out.len();
        let end = index.saturating_add(character.len_utf8());
        put_escaped(text.get(index..end).unwrap_or(""), out)?;
        if out.len() > most {
            out.truncate(before);
            is_whole = false;
            break;
        }
    }
    out.push(b'"')?;
    Ok(is_whole)
}

// The index of the character that this byte is in.
fn character_at(text: &str, byte: usize) -> usize {
    if byte >= text.len() {
        return text.len();
    }
    let mut found: usize = 0;
    for (index, _) in text.char_indices() {
        if index > byte {
            break;
        }
        found = index;
    }
    found
}
