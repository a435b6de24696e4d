//! Steps into the JSON of a registry or a format.

use bcs_display_mistakes::put_marked;
use bcs_display_refusal::Location;
use bcs_display_text::columns::put_decimal;
use serde_json::Value;
use std::alloc::{AllocError, Global};

/// A step from a JSON value to an item or a member of it.
#[derive(Drop)]
pub(crate) enum ShapeStep {
    Item(usize),
    Member(String),
}

/// The location at the end of these steps, as a JSON Pointer.
pub(crate) fn location_of(alloc: Global, steps: &[ShapeStep]) -> Result<Location, AllocError> {
    let mut pointer = Vec::new(alloc);
    for step in steps {
        pointer.push(b'/')?;
        match step {
            ShapeStep::Item(number) => put_decimal(*number as u128, &mut pointer)?,
            ShapeStep::Member(name) => put_marked(name.as_bytes(), &mut pointer)?,
        }
    }
    Ok(Location::Pointer(pointer))
}

/// The value at the end of these steps.
pub(crate) fn value_at<'a>(json: &'a Value, steps: &[ShapeStep]) -> Option<&'a Value> {
    let mut found = json;
    for step in steps {
        found = match step {
            ShapeStep::Item(number) => found.as_array()?.get(*number)?,
            ShapeStep::Member(name) => found.as_object()?.get(name.as_str())?,
        };
    }
    Some(found)
}
