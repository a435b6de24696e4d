//! Prints names.

use bcs_display_text::escaping::put_escaped;
use bcs_registry_model::words::word_format;
use std::alloc::AllocError;

/// Appends a plain name as it is, and any other name as a JSON string in ASCII. A plain name starts with an ASCII
/// letter or `_`, contains only these and digits, and isn't the name of a format.
pub(crate) fn put_name(name: &str, out: &mut Vec<u8>) -> Result<(), AllocError> {
    if is_plain(name) {
        return out.extend_from_slice(name.as_bytes());
    }
    out.push(b'"')?;
    put_escaped(name, out)?;
    Ok(out.push(b'"')?)
}

fn is_plain(name: &str) -> bool {
    let bytes = name.as_bytes();
    bytes.first().is_some_and(|first| is_letter(*first))
        && bytes
            .iter()
            .all(|byte| is_letter(*byte) || byte.is_ascii_digit())
        && word_format(name).is_none()
}

fn is_letter(byte: u8) -> bool {
    byte.is_ascii_alphabetic() || byte == b'_'
}
