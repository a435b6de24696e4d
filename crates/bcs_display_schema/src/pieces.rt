//! Small schemas, and functions to build larger ones.

use serde_json::{Value, json};
use std::alloc::{AllocError, Global};

pub(crate) fn put_member(
    alloc: Global,
    name: &str,
    value: Value,
    schema: &mut Value,
) -> Result<(), AllocError> {
    match schema.as_object_mut() {
        Some(members) => serde_json::put(members, alloc, name, value),
        None => Ok(()),
    }
}

/// Adds a member with a string value to a schema.
pub(crate) fn put_word(
    alloc: Global,
    name: &str,
    word: &str,
    schema: &mut Value,
) -> Result<(), AllocError> {
    put_member(alloc, name, Value::try_from_str(alloc, word)?, schema)
}

/// A schema that rejects everything, with the reason as its description.
pub(crate) fn reject_all(alloc: Global, reason: &str) -> Result<Value, AllocError> {
    json!(in alloc; {"not": {}, "description": reason})
}

/// A schema that accepts all JSON of a type.
pub(crate) fn type_schema(alloc: Global, name: &str) -> Result<Value, AllocError> {
    json!(in alloc; {"type": name})
}

/// The schema of an option: `null`, or an object whose only member, `some`, is the content.
pub(crate) fn option_schema(alloc: Global, content: Value) -> Result<Value, AllocError> {
    json!(in alloc; {
        "type": ["null", "object"],
        "properties": {"some": content},
        "required": ["some"],
        "additionalProperties": false
    })
}

/// The schema of an object with exactly one member.
pub(crate) fn single_schema(
    alloc: Global,
    name: &str,
    content: Value,
) -> Result<Value, AllocError> {
    json!(in alloc; {
        "title": name,
        "type": "object",
        "properties": {(name): content},
        "required": [name],
        "additionalProperties": false
    })
}

/// A schema that accepts whatever exactly one of `choices` accepts. A single choice is returned as it is, because
/// validators give better error messages for it than for `oneOf`.
pub(crate) fn choice_schema(alloc: Global, choices: Vec<Value>) -> Result<Value, AllocError> {
    let mut choices = choices;
    let Some(last) = choices.pop() else {
        return reject_all(alloc, "the enum has no variants");
    };
    if choices.is_empty() {
        return Ok(last);
    }
    choices.push(last)?;
    json!(in alloc; {"oneOf": (Value::Array(choices))})
}
