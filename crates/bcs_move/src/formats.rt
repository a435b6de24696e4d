//! The JSON of formats of types.

use crate::maker::Maker;
use crate::named_types::put_named;
use crate::standard::{ASCII, OPTION, STRING, require_standard};
use bcs_move_types::leaf::Leaf;
use bcs_move_types::move_type::MoveType;
use bcs_move_types::place::Place;
use bcs_move_types::refusal::{MoveFault, MoveRefusalName, refusal, refusal_with};
use std::alloc::Global;

/// The container of an address, and of the integers that no format has. The lowest byte of an integer comes first.
const WIDE: &str = "{\"NEWTYPESTRUCT\":{\"TUPLEARRAY\":{\"CONTENT\":\"U8\",\"SIZE\":32}}}";

/// Appends the format of a type without parameters.
#[cycle(formats)]
pub(crate) fn put_format(
    alloc: Global,
    maker: &mut Maker<'_, '_>,
    kind: &MoveType,
    place: &Place<'_>,
    out: &mut String,
) -> Result<(), MoveFault> {
    match kind {
        MoveType::Leaf(leaf) => put_leaf(alloc, maker, *leaf, place, out),
        MoveType::Vector(element) => {
            if is_byte(element) {
                return Ok(out.push_str("\"BYTES\"")?);
            }
            out.push_str("{\"SEQ\":")?;
            put_format(alloc, maker, element, place, out)?;
            Ok(out.push('}')?)
        }
        MoveType::Declared(head, arguments) => match head.as_str() {
            STRING | ASCII => put_string(alloc, maker, head.as_str(), arguments, place, out),
            OPTION => put_option(alloc, maker, arguments, place, out),
            _ => put_named(alloc, maker, kind, place, out),
        },
        MoveType::Reference(_) | MoveType::Parameter(_) => {
            let message = "a reference has no bytes";
            Err(refusal(alloc, MoveRefusalName::NoBytes, place, message))
        }
    }
}

fn is_byte(kind: &MoveType) -> bool {
    matches!(kind, MoveType::Leaf(Leaf::U8))
}

#[cycle(formats)]
fn put_option(
    alloc: Global,
    maker: &mut Maker<'_, '_>,
    arguments: &[MoveType],
    place: &Place<'_>,
    out: &mut String,
) -> Result<(), MoveFault> {
    require_standard(alloc, maker.modules, OPTION, place)?;
    match arguments {
        [content] => {
            out.push_str("{\"OPTION\":")?;
            put_format(alloc, maker, content, place, out)?;
            Ok(out.push('}')?)
        }
        _ => Err(wrong_count(alloc, OPTION, 1, arguments.len(), place)),
    }
}

fn put_string(
    alloc: Global,
    maker: &mut Maker<'_, '_>,
    head: &str,
    arguments: &[MoveType],
    place: &Place<'_>,
    out: &mut String,
) -> Result<(), MoveFault> {
    require_standard(alloc, maker.modules, head, place)?;
    if !arguments.is_empty() {
        return Err(wrong_count(alloc, head, 0, arguments.len(), place));
    }
    if head == ASCII {
        maker.ascii.add(alloc, place)?;
    }
    Ok(out.push_str("\"STR\"")?)
}

fn put_leaf(
    alloc: Global,
    maker: &mut Maker<'_, '_>,
    leaf: Leaf,
    place: &Place<'_>,
    out: &mut String,
) -> Result<(), MoveFault> {
    let word = match leaf {
        Leaf::Bool => "\"BOOL\"",
        Leaf::U8 => "\"U8\"",
        Leaf::U16 => "\"U16\"",
        Leaf::U32 => "\"U32\"",
        Leaf::U64 => "\"U64\"",
        Leaf::U128 => "\"U128\"",
        Leaf::I8 => "\"I8\"",
        Leaf::I16 => "\"I16\"",
        Leaf::I32 => "\"I32\"",
        Leaf::I64 => "\"I64\"",
        Leaf::I128 => "\"I128\"",
        Leaf::Address | Leaf::U256 | Leaf::I256 => {
            return put_wide(alloc, maker, leaf.word(), out);
        }
        Leaf::Signer => {
            let message = "a signer has no bytes";
            return Err(refusal(alloc, MoveRefusalName::NoBytes, place, message));
        }
    };
    Ok(out.push_str(word)?)
}

/// Appends the name of a container of 32 bytes, which is made if it is new.
fn put_wide(
    alloc: Global,
    maker: &mut Maker<'_, '_>,
    word: &str,
    out: &mut String,
) -> Result<(), MoveFault> {
    if !maker.containers.contains_key(word) {
        let name = String::from_str(alloc, word)?;
        let container = String::from_str(alloc, WIDE)?;
        drop(maker.containers.insert(name, container)?);
    }
    put_type_name(word, out)
}

/// Appends the format that is the container with this name.
pub(crate) fn put_type_name(name: &str, out: &mut String) -> Result<(), MoveFault> {
    out.push_str("{\"TYPENAME\":\"")?;
    out.push_str(name)?;
    Ok(out.push_str("\"}")?)
}

/// Refuses a type with another number of arguments than `head` has parameters.
pub(crate) fn wrong_count(
    alloc: Global,
    head: &str,
    parameters: usize,
    arguments: usize,
    place: &Place<'_>,
) -> MoveFault {
    let message = format!(in alloc;
        "the number of type parameters of {head} is {parameters}, and here are {arguments} type arguments"
    );
    refusal_with(alloc, MoveRefusalName::WrongCount, place, message)
}
