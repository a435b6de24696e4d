//! JSON in messages.

use bcs_display_refusal::Name;
use serde_json::Value;
use std::alloc::{AllocError, Global};

/// What a message calls a JSON value, or that it is absent: one line in ASCII.
pub fn shown(alloc: Global, value: Option<&Value>) -> Result<String, AllocError> {
    let word = match value {
        None => "nothing",
        Some(Value::Null) => "null",
        Some(Value::Bool(true)) => "true",
        Some(Value::Bool(false)) => "false",
        Some(Value::Number(_)) => "a number",
        Some(Value::Array(_)) => "an array",
        Some(Value::Object(_)) => "an object",
        Some(Value::String(text)) => return quoted(alloc, text.as_str()),
    };
    String::from_str(alloc, word)
}

/// A text in quotes: escaped, and cut if it is long.
pub fn quoted(alloc: Global, text: &str) -> Result<String, AllocError> {
    let text = Name::of(text);
    format!(in alloc; "\"{text}\"")
}
