//! Parses the JSON of modules.

use crate::place::Place;
use crate::refusal::{MoveFault, MoveRefusalName, refusal_with};
use crate::repeated_members::refuse_repeated_members;
use bcs_display_mistakes::json_mistake;
use serde_json::{Error, Value};
use std::alloc::Global;

/// Parses JSON in which no object has two members with the same name. (`serde_json` would keep the last one.)
pub fn modules_value(alloc: Global, text: &str) -> Result<Value, MoveFault> {
    match Value::from_str(alloc, text) {
        Ok(value) => {
            refuse_repeated_members(alloc, text)?;
            Ok(value)
        }
        Err(error) => Err(no_json(alloc, text.as_bytes(), &error)),
    }
}

fn no_json(alloc: Global, text: &[u8], error: &Error) -> MoveFault {
    if error.is_memory() {
        return MoveFault::OutOfMemory;
    }
    let mistake = json_mistake(alloc, text);
    let (line, column) = mistake.line_and_column(text);
    let words = mistake.words;
    let message = format!(in alloc; "line {line}, column {column}: {words}");
    refusal_with(alloc, MoveRefusalName::NotJson, &Place::At(""), message)
}
