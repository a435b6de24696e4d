//! Reads types as Sui writes them: `{"Vector": "U8"}`.

use crate::leaf::Leaf;
use crate::members::{array_in, text_in};
use crate::move_type::{DEEPEST, MoveType};
use crate::place::{Place, item, member};
use crate::qualified::declared_in;
use crate::refusal::{MoveFault, MoveRefusalName, refusal_with};
use crate::shown::shown;
use crate::type_text::too_deep;
use crate::words::parameter_numbered;
use serde_json::Value;
use std::alloc::Global;

/// Reads a type.
pub(crate) fn type_of_json(
    alloc: Global,
    value: &Value,
    place: &Place<'_>,
) -> Result<MoveType, MoveFault> {
    next_type(alloc, value, place, DEEPEST)
}

/// Reads a type that may nest `levels` deep.
#[cycle(json)]
fn next_type(
    alloc: Global,
    value: &Value,
    place: &Place<'_>,
    levels: u32,
) -> Result<MoveType, MoveFault> {
    match value {
        Value::String(word) => match Leaf::called_on_sui(word.as_str()) {
            Some(leaf) => Ok(MoveType::Leaf(leaf)),
            None => Err(no_type(alloc, value, place)),
        },
        Value::Object(members) => {
            let mut entries = members.iter();
            match (entries.next(), entries.next()) {
                (Some((kind, inner)), None) => {
                    next_tagged(alloc, kind.as_str(), inner, place, levels)
                }
                _ => Err(no_type(alloc, value, place)),
            }
        }
        _ => Err(no_type(alloc, value, place)),
    }
}

/// Reads a type that is an object with the single member `kind`.
#[cycle(json)]
fn next_tagged(
    alloc: Global,
    kind: &str,
    inner: &Value,
    outer: &Place<'_>,
    levels: u32,
) -> Result<MoveType, MoveFault> {
    let place = member(outer, kind);
    if kind == "TypeParameter" {
        return match parameter_of(inner) {
            Some(number) => Ok(MoveType::Parameter(number)),
            None => Err(no_type(alloc, inner, &place)),
        };
    }
    if levels == 0 {
        return Err(too_deep(alloc, outer));
    }
    match kind {
        "Vector" => {
            let element = next_type(alloc, inner, &place, levels - 1)?;
            Ok(MoveType::Vector(Box::new(alloc, element)?))
        }
        "Reference" | "MutableReference" => {
            let target = next_type(alloc, inner, &place, levels - 1)?;
            Ok(MoveType::Reference(Box::new(alloc, target)?))
        }
        "Struct" => next_struct(alloc, inner, &place, levels - 1),
        _ => Err(no_type(alloc, inner, &place)),
    }
}

/// Reads the name and the arguments of a struct or enum.
#[cycle(json)]
fn next_struct(
    alloc: Global,
    value: &Value,
    place: &Place<'_>,
    levels: u32,
) -> Result<MoveType, MoveFault> {
    let name = declared_name(alloc, value, place)?;
    let things = array_in(alloc, value, "typeArguments", place)?;
    let place = member(place, "typeArguments");
    let mut arguments = Vec::with_capacity(alloc, things.len())?;
    for (number, thing) in things.iter().enumerate() {
        arguments.push(next_type(alloc, thing, &item(&place, number), levels)?)?;
    }
    Ok(MoveType::Declared(name, arguments))
}

fn declared_name(alloc: Global, value: &Value, place: &Place<'_>) -> Result<String, MoveFault> {
    let address = text_in(alloc, value, "address", place)?;
    let module = text_in(alloc, value, "module", place)?;
    let name = text_in(alloc, value, "name", place)?;
    match declared_in(alloc, address, module, name)? {
        Some(full) => Ok(full),
        None => Err(no_type(alloc, value, place)),
    }
}

fn parameter_of(value: &Value) -> Option<u32> {
    parameter_numbered(u32::try_from(value.as_u64()?).ok()?)
}

fn no_type(alloc: Global, value: &Value, place: &Place<'_>) -> MoveFault {
    let message = match shown(alloc, Some(value)) {
        Ok(found) => {
            let found = found.as_str();
            format!(in alloc;
                "{found} isn't a type: Sui writes one like \"U64\" or an object like Vector"
            )
        }
        Err(fault) => Err(fault),
    };
    refusal_with(alloc, MoveRefusalName::BadType, place, message)
}
