//! Reads types as people and Aptos write them: `0x1::table::Table<address, vector<T0>>`.

use crate::leaf::Leaf;
use crate::move_type::{DEEPEST, LONGEST, MoveType};
use crate::place::Place;
use crate::printing::too_long;
use crate::qualified::declared_called;
use crate::refusal::{MoveFault, MoveRefusalName, refusal};
use crate::words::parameter_called;
use crate::wrong_types::no_type;
use std::alloc::{AllocError, AllocFailed, Global};

/// What is left of the text of a type.
#[derive(Drop)]
struct Cursor<'a> {
    rest: &'a str,
}

impl<'a> Cursor<'a> {
    /// Skips the sign if it comes next, and returns whether it does.
    fn skips(&mut self, sign: char) -> bool {
        let text = self.rest.trim_start_matches(' ');
        match text.strip_prefix(sign) {
            Some(rest) => {
                self.rest = rest;
                true
            }
            None => false,
        }
    }

    /// Takes the next word: what comes before a sign or a space.
    fn word(&mut self) -> &'a str {
        let text = self.rest.trim_start_matches(' ');
        match text.split_at_checked(word_len(text)) {
            Some((word, rest)) => {
                self.rest = rest;
                word
            }
            None => "",
        }
    }

    /// Skips `mut`, if it comes next.
    fn skip_mut(&mut self) {
        if let Some(rest) = self.rest.strip_prefix("mut ") {
            self.rest = rest;
        }
    }
}

/// How many bytes come before the first sign or space.
pub(crate) fn word_len(text: &str) -> usize {
    for (index, byte) in text.as_bytes().iter().enumerate() {
        if matches!(*byte, b' ' | b'<' | b'>' | b',' | b'&') {
            return index;
        }
    }
    text.len()
}

/// Why a text isn't a type.
#[derive(Clone, Copy)]
enum TextFault {
    NoType,
    TooDeep,
    OutOfMemory,
}

impl From<AllocError> for TextFault {
    fn from(_: AllocError) -> Self {
        TextFault::OutOfMemory
    }
}

impl<T: Drop> From<AllocFailed<T>> for TextFault {
    fn from(_: AllocFailed<T>) -> Self {
        TextFault::OutOfMemory
    }
}

/// Reads a type.
pub fn type_of_text(alloc: Global, text: &str, place: &Place<'_>) -> Result<MoveType, MoveFault> {
    if text.len() > LONGEST {
        return Err(too_long(alloc, place));
    }
    if text.contains('|') {
        let message = "function values aren't supported: nobody knows their bytes from here";
        return Err(refusal(alloc, MoveRefusalName::NoBytes, place, message));
    }
    match whole_type(alloc, text) {
        Ok(kind) => Ok(kind),
        Err(TextFault::NoType) => Err(no_type(alloc, text, place)),
        Err(TextFault::TooDeep) => Err(too_deep(alloc, place)),
        Err(TextFault::OutOfMemory) => Err(MoveFault::OutOfMemory),
    }
}

/// Refuses a type that nests too deep.
pub(crate) fn too_deep(alloc: Global, place: &Place<'_>) -> MoveFault {
    let message = "the type nests more than 32 deep (do its type arguments never end?)";
    refusal(alloc, MoveRefusalName::TooLarge, place, message)
}

fn whole_type(alloc: Global, text: &str) -> Result<MoveType, TextFault> {
    let mut cursor = Cursor { rest: text };
    let kind = next_type(alloc, &mut cursor, DEEPEST)?;
    if cursor.rest.is_empty() {
        Ok(kind)
    } else {
        Err(TextFault::NoType)
    }
}

/// Reads the next type, which may nest `levels` deep.
#[cycle(reading)]
fn next_type(alloc: Global, cursor: &mut Cursor<'_>, levels: u32) -> Result<MoveType, TextFault> {
    if cursor.skips('&') {
        if levels == 0 {
            return Err(TextFault::TooDeep);
        }
        cursor.skip_mut();
        let target = next_type(alloc, cursor, levels - 1)?;
        return Ok(MoveType::Reference(Box::new(alloc, target)?));
    }
    let word = cursor.word();
    let mut arguments = Vec::new(alloc);
    if cursor.skips('<') {
        if levels == 0 {
            return Err(TextFault::TooDeep);
        }
        next_arguments(alloc, cursor, levels - 1, &mut arguments)?;
    }
    type_called(alloc, word, arguments)
}

/// Reads the arguments of a type, up to the closing bracket.
#[cycle(reading)]
fn next_arguments(
    alloc: Global,
    cursor: &mut Cursor<'_>,
    levels: u32,
    arguments: &mut Vec<MoveType>,
) -> Result<(), TextFault> {
    // Each argument has at least one character.
    for _ in 0..LONGEST {
        arguments.push(next_type(alloc, cursor, levels)?)?;
        if cursor.skips('>') {
            return Ok(());
        }
        if !cursor.skips(',') {
            return Err(TextFault::NoType);
        }
    }
    Err(TextFault::NoType)
}

/// The type with this name and these arguments.
fn type_called(alloc: Global, word: &str, arguments: Vec<MoveType>) -> Result<MoveType, TextFault> {
    if word.contains("::") {
        return match declared_called(alloc, word)? {
            Some(name) => Ok(MoveType::Declared(name, arguments)),
            None => Err(TextFault::NoType),
        };
    }
    let mut arguments = arguments;
    match (word, arguments.pop()) {
        ("vector", Some(element)) if arguments.is_empty() => {
            Ok(MoveType::Vector(Box::new(alloc, element)?))
        }
        (_, None) => simple_type(word).ok_or(TextFault::NoType),
        _ => Err(TextFault::NoType),
    }
}

/// The type of this word alone.
pub(crate) fn simple_type(word: &str) -> Option<MoveType> {
    match Leaf::called(word) {
        Some(leaf) => Some(MoveType::Leaf(leaf)),
        None => Some(MoveType::Parameter(parameter_called(word)?)),
    }
}
