//! Finds the modules in the answers of a chain.

use crate::members::unexpected;
use crate::modules::{Modules, put_module};
use crate::place::{Place, item, member};
use crate::refusal::{MoveFault, MoveRefusalName, refusal_with};
use crate::shown::shown;
use serde_json::{Map, Value};
use std::alloc::Global;

/// Indexes the modules in an answer, or in an array of answers. An answer is a module, with `abi` around it or not,
/// Sui's object of modules, or one of these with `result` around it, as in JSON-RPC.
pub fn modules_of<'m>(alloc: Global, value: &'m Value) -> Result<Modules<'m>, MoveFault> {
    let mut modules = Modules::new(alloc);
    put_answers(alloc, value, &Place::At(""), &mut modules)?;
    Ok(modules)
}

fn put_answers<'m>(
    alloc: Global,
    value: &'m Value,
    place: &Place<'_>,
    modules: &mut Modules<'m>,
) -> Result<(), MoveFault> {
    match value {
        Value::Array(items) => {
            for (number, value) in items.iter().enumerate() {
                put_answers(alloc, value, &item(&*place, number), modules)?;
            }
            Ok(())
        }
        _ => put_answer(alloc, value, &*place, modules),
    }
}

fn put_answer<'m>(
    alloc: Global,
    value: &'m Value,
    place: &Place<'_>,
    modules: &mut Modules<'m>,
) -> Result<(), MoveFault> {
    match (value.get("result"), value.get("structs")) {
        (Some(result), None) => put_package(alloc, result, &member(place, "result"), modules),
        _ => put_package(alloc, value, place, modules),
    }
}

/// Adds a module or Sui's object of modules.
fn put_package<'m>(
    alloc: Global,
    value: &'m Value,
    place: &Place<'_>,
    modules: &mut Modules<'m>,
) -> Result<(), MoveFault> {
    match value {
        Value::Object(members) if are_modules_of_sui(members) => {
            for (name, value) in members.iter() {
                put_named_module(alloc, name.as_str(), value, place, modules)?;
            }
            Ok(())
        }
        _ => match error_in(value) {
            Some(error) => Err(chain_error(alloc, error, place)),
            None => put_single(alloc, value, place, modules),
        },
    }
}

fn put_named_module<'m>(
    alloc: Global,
    name: &str,
    value: &'m Value,
    place: &Place<'_>,
    modules: &mut Modules<'m>,
) -> Result<(), MoveFault> {
    put_module(alloc, value, Some(name), &member(place, name), modules)
}

fn are_modules_of_sui(members: &Map<String, Value>) -> bool {
    for (_, value) in members.iter() {
        match value.get("structs") {
            Some(Value::Object(_)) => {}
            _ => return false,
        }
    }
    !members.is_empty()
}

/// Adds a module, with `abi` around it or not. In an array, one without its `abi` is skipped, since it may not be needed.
fn put_single<'m>(
    alloc: Global,
    value: &'m Value,
    place: &Place<'_>,
    modules: &mut Modules<'m>,
) -> Result<(), MoveFault> {
    match (value.get("abi"), value.get("bytecode")) {
        (None, None) => put_module(alloc, value, None, place, modules),
        (Some(module @ Value::Object(_)), _) => {
            put_module(alloc, module, None, &member(place, "abi"), modules)
        }
        (None | Some(Value::Null), _) if matches!(place, Place::Item(_, _)) => {
            Ok(modules.skip(alloc, place)?)
        }
        (found, _) => Err(unexpected(alloc, "an object", found, &member(place, "abi"))),
    }
}

/// What an answer says that is an error.
fn error_in(value: &Value) -> Option<&Value> {
    match (value.get("error"), value.get("error_code")) {
        (Some(error), _) => Some(error.get("message").unwrap_or(error)),
        (None, Some(code)) => Some(value.get("message").unwrap_or(code)),
        (None, None) => None,
    }
}

fn chain_error(alloc: Global, error: &Value, place: &Place<'_>) -> MoveFault {
    let message = match shown(alloc, Some(error)) {
        Ok(error) => {
            let error = error.as_str();
            format!(in alloc; "the chain answered with an error: {error}")
        }
        Err(fault) => Err(fault),
    };
    refusal_with(alloc, MoveRefusalName::ChainError, place, message)
}
