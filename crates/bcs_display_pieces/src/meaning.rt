//! The meaning of a piece, in words.

use crate::move_values::put_move_value;
use crate::piece::Piece;
use crate::steps::container_name;
use bcs_display_text::columns::{put_decimal, put_signed};
use bcs_display_text::escaping::put_escaped;
use bcs_explain::{Counted, Meaning, Trail};
use std::alloc::AllocError;

/// Appends the meaning of a piece at the end of `trail`.
pub(crate) fn put_meaning(
    trail: &Trail<'_, '_, '_>,
    piece: &Piece<'_>,
    out: &mut Vec<u8>,
) -> Result<(), AllocError> {
    match piece.kind {
        Some(kind) => put_move_value(kind, piece.bytes, out),
        None => put_bcs_meaning(trail, piece.bytes.len(), piece.meaning, out),
    }
}

fn put_bcs_meaning(
    trail: &Trail<'_, '_, '_>,
    size: usize,
    meaning: Meaning<'_>,
    out: &mut Vec<u8>,
) -> Result<(), AllocError> {
    match meaning {
        Meaning::Truth(true) => out.extend_from_slice(b"BOOL true"),
        Meaning::Truth(false) => out.extend_from_slice(b"BOOL false"),
        Meaning::Unsigned(number) => {
            put_bits(b'U', size, out)?;
            out.push(b' ')?;
            put_decimal(number, out)
        }
        Meaning::Signed(width, bits) => {
            put_bits(b'I', size, out)?;
            out.push(b' ')?;
            put_signed(width, bits, out)
        }
        Meaning::Length(counted, count) => put_length(counted, u64::from(count), out),
        Meaning::Text(text) => put_quoted(text, out),
        Meaning::Bytes(_) => put_quantity(size as u64, " byte", " bytes", out),
        Meaning::Octets => put_octets(size as u64, out),
        Meaning::Option(true) => out.extend_from_slice(b"OPTION present"),
        Meaning::Option(false) => out.extend_from_slice(b"OPTION absent"),
        Meaning::Variant(number, name) => {
            put_variant(trail, name, out)?;
            out.extend_from_slice(b", variant ")?;
            put_decimal(u128::from(number), out)
        }
    }
}

/// Appends only the format of a piece, or the names of its container and variant.
pub(crate) fn put_format(
    trail: &Trail<'_, '_, '_>,
    size: usize,
    meaning: Meaning<'_>,
    out: &mut Vec<u8>,
) -> Result<(), AllocError> {
    match meaning {
        Meaning::Truth(_) => out.extend_from_slice(b"BOOL"),
        Meaning::Unsigned(_) => put_bits(b'U', size, out),
        Meaning::Signed(_, _) => put_bits(b'I', size, out),
        Meaning::Length(counted, _) => out.extend_from_slice(counted_word(counted).as_bytes()),
        Meaning::Text(_) => out.extend_from_slice(b"STR"),
        Meaning::Bytes(_) => out.extend_from_slice(b"BYTES"),
        Meaning::Octets => out.extend_from_slice(b"U8"),
        Meaning::Option(_) => out.extend_from_slice(b"OPTION"),
        Meaning::Variant(_, name) => put_variant(trail, name, out),
    }
}

/// Appends the format of an integer of `size` bytes: `letter` and the number of bits.
pub(crate) fn put_bits(letter: u8, size: usize, out: &mut Vec<u8>) -> Result<(), AllocError> {
    out.push(letter)?;
    put_decimal(8 * size as u128, out)
}

/// Appends the format of `count` consecutive `U8`.
pub(crate) fn put_octets(count: u64, out: &mut Vec<u8>) -> Result<(), AllocError> {
    put_decimal(u128::from(count), out)?;
    out.extend_from_slice(b" x U8")
}

/// Appends `count`, followed by `one` if it is 1 and by `more` otherwise.
pub(crate) fn put_quantity(
    count: u64,
    one: &str,
    more: &str,
    out: &mut Vec<u8>,
) -> Result<(), AllocError> {
    put_decimal(u128::from(count), out)?;
    let name = if count == 1 { one } else { more };
    out.extend_from_slice(name.as_bytes())
}

/// The format whose length this is.
pub(crate) fn counted_word(counted: Counted) -> &'static str {
    match counted {
        Counted::Text => "STR",
        Counted::Bytes => "BYTES",
        Counted::List | Counted::Octets => "SEQ",
        Counted::Map => "MAP",
    }
}

fn put_length(counted: Counted, count: u64, out: &mut Vec<u8>) -> Result<(), AllocError> {
    let (one, more) = match counted {
        Counted::Text | Counted::Bytes => (" byte", " bytes"),
        Counted::List | Counted::Octets => (" element", " elements"),
        Counted::Map => (" entry", " entries"),
    };
    out.extend_from_slice(counted_word(counted).as_bytes())?;
    out.extend_from_slice(b", ")?;
    put_quantity(count, one, more, out)
}

fn put_quoted(text: &str, out: &mut Vec<u8>) -> Result<(), AllocError> {
    out.push(b'"')?;
    put_escaped(text, out)?;
    Ok(out.push(b'"')?)
}

// Appends the names of the container and of the variant.
fn put_variant(trail: &Trail<'_, '_, '_>, name: &str, out: &mut Vec<u8>) -> Result<(), AllocError> {
    put_escaped(container_name(trail), out)?;
    out.extend_from_slice(b"::")?;
    put_escaped(name, out)
}
