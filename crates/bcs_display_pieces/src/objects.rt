//! Pieces, the end and the stop as JSON objects, one per line. The fields of each struct are in alphabetical order,
//! which is the order in which they are printed.

use crate::above::Above;
use crate::ending::Why;
use crate::halt::Halt;
use crate::meaning::put_format;
use crate::move_values::put_move_value;
use crate::piece::Piece;
use crate::steps::{put_field_path, put_path};
use bcs_display_refusal::Refusal;
use bcs_display_text::columns::{put_decimal, put_signed};
use bcs_explain::{Meaning, Trail};
use serde::Serialize;
use std::alloc::{AllocError, Global};
use std::str::from_utf8;

#[derive(Drop, Serialize)]
struct PieceObject<'a> {
    bytes: String,
    kind: &'a str,
    name: String,
    path: Option<String>,
    place: u64,
    value: PieceValue<'a>,
    what: String,
}

#[derive(Drop, Serialize)]
#[serde(untagged)]
enum PieceValue<'a> {
    Flag(bool),
    Count(u64),
    /// An integer, as a string: it may have 128 bits. Or an address.
    Digits(String),
    Text(&'a str),
}

#[derive(Drop, Serialize)]
struct EndObject {
    end: usize,
}

#[derive(Drop, Serialize)]
struct StopObject<'a> {
    name: String,
    path: Option<String>,
    place: u64,
    refused: &'a str,
    want: String,
}

#[derive(Drop, Serialize)]
struct NoteObject<'a> {
    name: &'a str,
    note: &'a str,
}

pub(crate) fn put_piece_object(
    piece: &Piece<'_>,
    above: &Above,
    trail: &Trail<'_, '_, '_>,
    out: &mut Vec<u8>,
) -> Result<(), AllocError> {
    let alloc = *out.allocator();
    let object = PieceObject {
        bytes: hex::encode(alloc, piece.bytes)?,
        kind: kind_word(piece),
        name: way_text(alloc, above, trail)?,
        path: word_text(alloc, above, trail)?,
        place: piece.place,
        value: piece_value(alloc, piece)?,
        what: format_text(alloc, trail, piece.bytes.len(), piece.meaning)?,
    };
    put_object(&object, out)
}

pub(crate) fn put_end_object(end: usize, out: &mut Vec<u8>) -> Result<(), AllocError> {
    put_object(&EndObject { end }, out)
}

/// Appends the object for the stop: the offset, the reason and what was expected.
pub(crate) fn put_stop_object(
    why: Why,
    place: u64,
    halt: Halt,
    out: &mut Vec<u8>,
) -> Result<(), AllocError> {
    let object = StopObject {
        name: ascii_text(halt.way)?,
        path: path_text(halt.path)?,
        place,
        refused: why.name(),
        want: ascii_text(halt.expected)?,
    };
    put_object(&object, out)
}

/// Appends the object for a note: what it is about, and its message.
pub(crate) fn put_note_object(note: &Refusal, out: &mut Vec<u8>) -> Result<(), AllocError> {
    let alloc = *out.allocator();
    let place = note.place(alloc)?;
    let object = NoteObject {
        name: from_utf8(&place).unwrap_or(""),
        note: from_utf8(&note.message).unwrap_or(""),
    };
    put_object(&object, out)
}

// Only an allocation can fail here: a struct of strings and numbers has no other error. No clause of `serde_json` says
// so.
fn put_object<T: Serialize>(object: &T, out: &mut Vec<u8>) -> Result<(), AllocError> {
    let line = serde_json::to_vec(*out.allocator(), object).map_err(|_| AllocError)?;
    out.extend_from_slice(&line)?;
    Ok(out.push(b'\n')?)
}

fn kind_word(piece: &Piece<'_>) -> &'static str {
    match piece.kind {
        Some(kind) => kind.word(),
        None => meaning_word(piece.meaning),
    }
}

fn meaning_word(meaning: Meaning<'_>) -> &'static str {
    match meaning {
        Meaning::Truth(_) => "truth",
        Meaning::Unsigned(_) => "unsigned",
        Meaning::Signed(_, _) => "signed",
        Meaning::Length(_, _) => "length",
        Meaning::Text(_) => "text",
        Meaning::Bytes(_) => "bytes",
        Meaning::Octets => "octets",
        Meaning::Option(_) => "option",
        Meaning::Variant(_, _) => "variant",
    }
}

fn piece_value<'a>(alloc: Global, piece: &Piece<'a>) -> Result<PieceValue<'a>, AllocError> {
    match piece.kind {
        Some(kind) => {
            let mut text = Vec::new(alloc);
            put_move_value(kind, piece.bytes, &mut text)?;
            Ok(PieceValue::Digits(ascii_text(text)?))
        }
        None => meaning_value(alloc, piece.bytes.len(), piece.meaning),
    }
}

// Integers are strings, since they may have 128 bits. Lengths and counts are numbers.
fn meaning_value<'a>(
    alloc: Global,
    size: usize,
    meaning: Meaning<'a>,
) -> Result<PieceValue<'a>, AllocError> {
    match meaning {
        Meaning::Truth(flag) | Meaning::Option(flag) => Ok(PieceValue::Flag(flag)),
        Meaning::Unsigned(number) => {
            let mut digits = Vec::new(alloc);
            put_decimal(number, &mut digits)?;
            Ok(PieceValue::Digits(ascii_text(digits)?))
        }
        Meaning::Signed(width, bits) => {
            let mut digits = Vec::new(alloc);
            put_signed(width, bits, &mut digits)?;
            Ok(PieceValue::Digits(ascii_text(digits)?))
        }
        Meaning::Length(_, number) | Meaning::Variant(number, _) => {
            Ok(PieceValue::Count(u64::from(number)))
        }
        Meaning::Text(text) => Ok(PieceValue::Text(text)),
        Meaning::Bytes(_) | Meaning::Octets => Ok(PieceValue::Count(size as u64)),
    }
}

// The field path of the piece, by names.
fn way_text(alloc: Global, above: &Above, trail: &Trail<'_, '_, '_>) -> Result<String, AllocError> {
    let mut way = Vec::new(alloc);
    put_field_path(above, trail, &mut way)?;
    ascii_text(way)
}

fn word_text(
    alloc: Global,
    above: &Above,
    trail: &Trail<'_, '_, '_>,
) -> Result<Option<String>, AllocError> {
    let mut path = Vec::new(alloc);
    put_path(above, trail, &mut path)?;
    path_text(path)
}

fn format_text(
    alloc: Global,
    trail: &Trail<'_, '_, '_>,
    size: usize,
    meaning: Meaning<'_>,
) -> Result<String, AllocError> {
    let mut format = Vec::new(alloc);
    put_format(trail, size, meaning, &mut format)?;
    ascii_text(format)
}

// The PATH argument, or `null` if no path leads there.
fn path_text(path: Vec<u8>) -> Result<Option<String>, AllocError> {
    if path.as_slice() == b"-".as_slice() {
        return Ok(None);
    }
    Ok(Some(ascii_text(path)?))
}

// Everything printed here is ASCII, so the conversion never fails. No clause says so.
fn ascii_text(bytes: Vec<u8>) -> Result<String, AllocError> {
    match String::from_utf8(bytes) {
        Ok(text) => Ok(text),
        Err(_) => Err(AllocError),
    }
}
