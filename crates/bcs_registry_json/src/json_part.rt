//! Reads the next value of a JSON document from its tokens, with the same result as `serde_json`.
ghost use Rattle.std.specs.Prelude.{◌≡◌, ◌<◌, length, option_map, Some, IfOk, IfSome, OnOk};
ghost use Rattle.json.specs.Json.{items, members, read_key, value};
ghost use Rattle.serde_json.specs.Data.{no_members};
ghost use Rattle.serde_json.specs.Read.{converted, number_of, of_items, of_json, of_members};
ghost use Rattle.serde_json.specs.View.{items_view, members_view, number_view, view};

use bcs_num::{Width, parse_unsigned};
use bcs_registry_model::RegistryFault;
use json::{Reader, Token};
use serde_json::{Map, Number, Value};
use std::alloc::Global;

/// Reads the next value. Arrays and objects may nest `depth` levels deep. Numbers must be ones that a registry can
/// contain: plain decimal, below 2^64. After a refusal, the position of the reader is unspecified.
#[cycle(part)]
#[inline(always)]
pub(crate) fn next_value(
    alloc: Global,
    reader: &mut Reader<'_>,
    depth: usize,
) -> Result<Value, RegistryFault>
    ensures ok { IfOk result
        (λ v. converted of_json (value depth reader.old) ≡ Some (view v, reader.new)) }
    ensures shorter { OnOk result (length reader.new < length reader.old) }
{
    let token = reader.next().ok_or(RegistryFault::NotJson)?;
    match token {
        Token::String(text) => Ok(Value::String(String::from_str(alloc, text)?)),
        Token::Number(text) => match plain_number(text) {
            Some(number) => Ok(Value::Number(number)),
            None => Err(RegistryFault::BadNumber),
        },
        Token::Bool(b) => Ok(Value::Bool(b)),
        Token::Null => Ok(Value::Null),
        Token::EndObject | Token::EndArray | Token::Key(_) | Token::Bad => {
            Err(RegistryFault::NotJson)
        }
        Token::BeginArray => {
            if depth == 0 {
                return Err(RegistryFault::NotJson);
            }
            Ok(Value::Array(next_items(alloc, reader, depth - 1)?))
        }
        Token::BeginObject => {
            if depth == 0 {
                return Err(RegistryFault::NotJson);
            }
            Ok(Value::Object(next_members(alloc, reader, depth - 1)?))
        }
    }
}

/// Reads the items after the opening bracket of an array, up to the closing one.
#[cycle(part)]
#[inline(never)]
fn next_items(
    alloc: Global,
    reader: &mut Reader<'_>,
    depth: usize,
) -> Result<Vec<Value>, RegistryFault>
    ensures ok { IfOk result
        (λ v. converted of_items (items (value depth) (length reader.old) reader.old)
        ≡ Some (items_view v.items, reader.new)) }
    ensures shorter { OnOk result (length reader.new < length reader.old) }
{
    let mut found = Vec::new(alloc);
    'items: while !reader.take_end_array() {
        let item = next_value(alloc, reader, depth)?;
        found.push(item)?;
    }
    Ok(found)
}

/// Reads the members after the opening brace of an object, up to the closing one.
#[cycle(part)]
#[inline(never)]
fn next_members(
    alloc: Global,
    reader: &mut Reader<'_>,
    depth: usize,
) -> Result<Map<String, Value>, RegistryFault>
    ensures ok { IfOk result
        (λ m. converted (λ ms. of_members ms no_members)
        (members (value depth) (length reader.old) reader.old)
        ≡ Some (members_view m.entries, reader.new)) }
    ensures shorter { OnOk result (length reader.new < length reader.old) }
{
    let mut found = Map::new(alloc);
    'members: while let Some(name) = next_name(reader)? {
        let key = String::from_str(alloc, name)?;
        let member = next_value(alloc, reader, depth)?;
        drop(found.insert(key, member)?);
    }
    Ok(found)
}

fn plain_number(text: &str) -> Option<Number>
    ensures { IfSome result (λ n. number_of text.now ≡ Some (number_view n)) }
{
    let number = parse_unsigned(Width::W8, text)?;
    Some(Number::from(u64::try_from(number).ok()?))
}

/// Reads the name of the next member of an object, or returns `None` at the closing brace.
#[inline(always)]
pub(crate) fn next_name<'a>(reader: &mut Reader<'a>) -> Result<Option<&'a str>, RegistryFault>
    ensures { IfOk result
        (λ k. read_key reader.old ≡ Some (option_map (λ s. s.now) k, reader.new)) }
{
    match reader.next_key() {
        Ok(name) => Ok(name),
        Err(_) => Err(RegistryFault::NotJson),
    }
}
