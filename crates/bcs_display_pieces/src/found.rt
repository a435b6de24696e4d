//! What was found where bytes stop being a value.

use crate::meaning::put_quantity;
use bcs_display_text::columns::put_hex;
use bcs_explain::Reason;
use std::alloc::AllocError;

/// The number of bytes of the longest length or variant number in BCS.
const LONGEST_NUMBER: usize = 5;

/// What follows a stop.
#[derive(Clone, Copy)]
pub(crate) enum Found<'a> {
    /// The rest of the input.
    InInput(&'a [u8]),
    /// The rest of a byte string in it.
    InByteString(&'a [u8]),
}

impl<'a> Found<'a> {
    pub(crate) fn rest(self) -> &'a [u8] {
        match self {
            Found::InInput(rest) | Found::InByteString(rest) => rest,
        }
    }
}

/// Appends what was found at a stop for this reason, and what to do.
pub(crate) fn put_found(
    reason: Reason,
    found: Found<'_>,
    out: &mut Vec<u8>,
) -> Result<(), AllocError> {
    let rest = found.rest();
    match reason {
        Reason::EndOfInput => put_end(found, out),
        Reason::BadBool | Reason::BadOption => {
            out.extend_from_slice(b", 00 or 01, found ")?;
            put_hex(first_of(rest, 1), out)
        }
        Reason::LongForm => {
            put_number(rest, out)?;
            out.extend_from_slice(b", which isn't the shortest form of the number")
        }
        Reason::NumberTooLarge => {
            put_number(rest, out)?;
            out.extend_from_slice(b", which is above 4294967295")
        }
        Reason::LengthTooLarge => {
            put_number(rest, out)?;
            out.extend_from_slice(b", which is above 2147483647")
        }
        Reason::BadUtf8 => {
            out.extend_from_slice(b" in UTF-8, found ")?;
            put_hex(first_of(rest, 1), out)
        }
        Reason::TrailingBytes => put_trailing(found, out),
        Reason::KeyOrder | Reason::KeyRepeated => {
            out.extend_from_slice(b"; the keys of a map ascend, compared as bytes")
        }
        Reason::Unsupported | Reason::UnknownVariant | Reason::TooDeep | Reason::TooManyNodes => Ok(
            (),
        ),
    }
}

fn put_end(found: Found<'_>, out: &mut Vec<u8>) -> Result<(), AllocError> {
    match found {
        Found::InInput(_) => out.extend_from_slice(b", found the end of the input"),
        Found::InByteString(_) => out.extend_from_slice(b", found the end of the byte string"),
    }
}

// The bytes of a number in ULEB128.
fn put_number(rest: &[u8], out: &mut Vec<u8>) -> Result<(), AllocError> {
    let bytes = first_of(rest, LONGEST_NUMBER);
    let len = match bytes.iter().position(|byte| *byte < 0x80) {
        Some(last) => last.saturating_add(1),
        None => bytes.len(),
    };
    out.extend_from_slice(b", found ")?;
    put_hex(first_of(bytes, len), out)
}

// The bytes behind a whole value.
fn put_trailing(found: Found<'_>, out: &mut Vec<u8>) -> Result<(), AllocError> {
    out.extend_from_slice(b", found ")?;
    put_quantity(found.rest().len() as u64, " byte more", " bytes more", out)?;
    match found {
        Found::InInput([b'\n']) => out.extend_from_slice(b", a line feed; remove it"),
        _ => Ok(()),
    }
}

fn first_of(bytes: &[u8], count: usize) -> &[u8] {
    bytes.get(..count).unwrap_or(bytes)
}
