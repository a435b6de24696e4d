//! Prints types, with type arguments in place of their parameters.

use crate::move_type::{LONGEST, MoveType};
use crate::place::Place;
use crate::refusal::{MoveFault, MoveRefusalName, refusal, refusal_with};
use std::alloc::{AllocError, Global};

/// Why a type can't be printed.
#[derive(Clone, Copy)]
enum PrintFault {
    /// There is no argument with this number.
    NoArgument(u32),
    TooLong,
    OutOfMemory,
}

impl From<AllocError> for PrintFault {
    fn from(_: AllocError) -> Self {
        PrintFault::OutOfMemory
    }
}

/// The text of a type, as both chains print it, such as `0x1::table::Table<address, vector<u8>>`. Each parameter, such as
/// `T0`, is replaced by the text in `arguments` with its number.
pub fn closed_text(
    alloc: Global,
    kind: &MoveType,
    arguments: &[String],
    place: &Place<'_>,
) -> Result<String, MoveFault> {
    let mut text = String::new(alloc);
    match put_type(kind, arguments, &mut text) {
        Ok(()) => Ok(text),
        Err(PrintFault::NoArgument(number)) => {
            let message = format!(in alloc;
                "there is no type parameter T{number} here: write a type"
            );
            Err(refusal_with(alloc, MoveRefusalName::BadType, place, message))
        }
        Err(PrintFault::TooLong) => Err(too_long(alloc, place)),
        Err(PrintFault::OutOfMemory) => Err(MoveFault::OutOfMemory),
    }
}

/// The texts of types without parameters.
pub fn closed_texts(
    alloc: Global,
    kinds: &[MoveType],
    place: &Place<'_>,
) -> Result<Vec<String>, MoveFault> {
    let mut texts = Vec::with_capacity(alloc, kinds.len())?;
    for kind in kinds {
        texts.push(closed_text(alloc, kind, &[], place)?)?;
    }
    Ok(texts)
}

/// Refuses a type whose text is too long.
pub(crate) fn too_long(alloc: Global, place: &Place<'_>) -> MoveFault {
    let message = "the type has more than 4000 characters (do its type arguments never end?)";
    refusal(alloc, MoveRefusalName::TooLarge, place, message)
}

#[cycle(printing)]
fn put_type(kind: &MoveType, arguments: &[String], out: &mut String) -> Result<(), PrintFault> {
    match kind {
        MoveType::Leaf(leaf) => put_word(leaf.word(), out),
        MoveType::Parameter(number) => match arguments.get(*number as usize) {
            Some(argument) => put_word(argument.as_str(), out),
            None => Err(PrintFault::NoArgument(*number)),
        },
        MoveType::Vector(element) => {
            put_word("vector<", out)?;
            put_type(element, arguments, out)?;
            put_word(">", out)
        }
        MoveType::Reference(target) => {
            put_word("&", out)?;
            put_type(target, arguments, out)
        }
        MoveType::Declared(head, kinds) => {
            put_word(head.as_str(), out)?;
            put_types(kinds, arguments, out)
        }
    }
}

/// Appends type arguments in their brackets, if there are any.
#[cycle(printing)]
fn put_types(kinds: &[MoveType], arguments: &[String], out: &mut String) -> Result<(), PrintFault> {
    for (number, kind) in kinds.iter().enumerate() {
        put_word(if number == 0 { "<" } else { ", " }, out)?;
        put_type(kind, arguments, out)?;
    }
    if kinds.is_empty() {
        return Ok(());
    }
    put_word(">", out)
}

fn put_word(word: &str, out: &mut String) -> Result<(), PrintFault> {
    if out.len().saturating_add(word.len()) > LONGEST {
        return Err(PrintFault::TooLong);
    }
    Ok(out.push_str(word)?)
}
