//! What a part is, in words.

use crate::cuts::{put_bytes, put_text};
use bcs_display_text::columns::{put_decimal, put_signed};
use bcs_display_text::escaping::put_escaped;
use bcs_explain::{Counted, Meaning, Step, Trail};
use std::alloc::AllocError;

/// Appends the description of a piece, as `bcs explain` prints it, and of bytes also the digits from `from` on.
pub(crate) fn put_meaning(
    trail: &Trail<'_, '_, '_>,
    bytes: &[u8],
    meaning: Meaning<'_>,
    from: usize,
    out: &mut Vec<u8>,
) -> Result<(), AllocError> {
    match meaning {
        Meaning::Truth(true) => out.extend_from_slice(b"BOOL true"),
        Meaning::Truth(false) => out.extend_from_slice(b"BOOL false"),
        Meaning::Unsigned(number) => {
            put_bits(b'U', bytes.len(), out)?;
            put_decimal(number, out)
        }
        Meaning::Signed(width, bits) => {
            put_bits(b'I', bytes.len(), out)?;
            put_signed(width, bits, out)
        }
        Meaning::Length(counted, count) => put_length(counted, u64::from(count), out),
        Meaning::Text(text) => put_text(text, from, out),
        Meaning::Bytes(_) => {
            put_quantity(bytes.len() as u64, " byte ", " bytes ", out)?;
            put_bytes(bytes, from, out)
        }
        Meaning::Octets => {
            put_quantity(bytes.len() as u64, " x U8 ", " x U8 ", out)?;
            put_bytes(bytes, from, out)
        }
        Meaning::Option(true) => out.extend_from_slice(b"OPTION present"),
        Meaning::Option(false) => out.extend_from_slice(b"OPTION absent"),
        Meaning::Variant(number, name) => put_variant(trail, number, name, out),
    }
}

/// Appends the size of a part.
pub(crate) fn put_size(size: usize, out: &mut Vec<u8>) -> Result<(), AllocError> {
    put_quantity(size as u64, " byte", " bytes", out)
}

fn put_bits(letter: u8, size: usize, out: &mut Vec<u8>) -> Result<(), AllocError> {
    out.push(letter)?;
    put_decimal(8 * size as u128, out)?;
    Ok(out.push(b' ')?)
}

fn put_quantity(count: u64, one: &str, more: &str, out: &mut Vec<u8>) -> Result<(), AllocError> {
    put_decimal(u128::from(count), out)?;
    let name = if count == 1 { one } else { more };
    out.extend_from_slice(name.as_bytes())
}

// Appends a length. That of an empty string is all of it, so this describes the string.
fn put_length(counted: Counted, count: u64, out: &mut Vec<u8>) -> Result<(), AllocError> {
    match counted {
        Counted::Text => put_text("", 0, out),
        Counted::Bytes => put_quantity(count, " byte", " bytes", out),
        Counted::List | Counted::Octets => {
            out.extend_from_slice(b"SEQ, ")?;
            put_quantity(count, " element", " elements", out)
        }
        Counted::Map => {
            out.extend_from_slice(b"MAP, ")?;
            put_quantity(count, " entry", " entries", out)
        }
    }
}

fn put_variant(
    trail: &Trail<'_, '_, '_>,
    number: u32,
    name: &str,
    out: &mut Vec<u8>,
) -> Result<(), AllocError> {
    if let Trail::Below(_, Step::Container(container)) = trail {
        put_escaped(container, out)?;
    }
    out.extend_from_slice(b"::")?;
    put_escaped(name, out)?;
    out.extend_from_slice(b", variant ")?;
    put_decimal(u128::from(number), out)
}
