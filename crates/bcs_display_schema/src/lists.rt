//! Schemas of arrays.

use crate::digits::allow_hex;
use crate::pieces::{put_member, type_schema};
use bcs_registry::Format;
use serde_json::{Value, json};
use std::alloc::{AllocError, Global};

/// The schema of an array of `size` elements, or of any number of them. `items` is the schema of an element.
pub(crate) fn elements_schema(
    alloc: Global,
    element: &Format,
    items: Value,
    size: Option<u64>,
) -> Result<Value, AllocError> {
    let mut schema = type_schema(alloc, "array")?;
    put_member(alloc, "items", items, &mut schema)?;
    if let Some(size) = size {
        put_member(alloc, "minItems", Value::from(size), &mut schema)?;
        put_member(alloc, "maxItems", Value::from(size), &mut schema)?;
    }
    if matches!(element, Format::U8) {
        allow_hex(alloc, size, &mut schema)?;
    }
    Ok(schema)
}

/// The schema of a map: an array of `[key, value]` arrays.
pub(crate) fn entries_schema(alloc: Global, key: Value, value: Value) -> Result<Value, AllocError> {
    json!(in alloc; {
        "type": "array",
        "items": {
            "type": "array",
            "prefixItems": [key, value],
            "items": false,
            "minItems": 2
        }
    })
}

/// The schema of an array of exactly these items. `prefixItems` must not be empty.
pub(crate) fn row_schema(alloc: Global, items: Vec<Value>) -> Result<Value, AllocError> {
    let count = items.len();
    if count == 0 {
        return json!(in alloc; {"type": "array", "maxItems": 0});
    }
    json!(in alloc; {
        "type": "array",
        "prefixItems": (Value::Array(items)),
        "items": false,
        "minItems": count
    })
}
