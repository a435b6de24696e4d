//! References to definitions.

use crate::pieces::reject_all;
use crate::whole_numbers::{WholeNumbers, whole_number_schema};
use bcs_registry::Registry;
use percent_encoding::{AsciiSet, NON_ALPHANUMERIC, ascii_set, utf8_percent_encode};
use serde_json::{Value, json};
use std::alloc::{AllocError, Global};

/// All characters except the unreserved ones of RFC 3986.
const RESERVED: AsciiSet = ascii_set!(
    NON_ALPHANUMERIC
        .remove(b'-')
        .remove(b'.')
        .remove(b'_')
        .remove(b'~')
);

/// A reference to the definition of a container. It rejects everything if no container has this name.
pub(crate) fn container_reference(
    alloc: Global,
    registry: &Registry,
    name: &str,
) -> Result<Value, AllocError> {
    match registry.container(name) {
        Some(_) => reference(alloc, name),
        None => reject_all(alloc, "no container has the name"),
    }
}

/// A reference to the definition of an integer format, or its schema in place if a container has the same name.
pub(crate) fn whole_number_reference(
    alloc: Global,
    registry: &Registry,
    numbers: WholeNumbers,
) -> Result<Value, AllocError> {
    match registry.container(numbers.word) {
        Some(_) => whole_number_schema(alloc, numbers),
        None => reference(alloc, numbers.word),
    }
}

/// A `$ref` to a definition: a JSON Pointer (RFC 6901) as the fragment of a URI.
fn reference(alloc: Global, name: &str) -> Result<Value, AllocError> {
    let step = pointer_step(alloc, name)?;
    let mut target = String::new(alloc);
    target.push_str("#/$defs/")?;
    utf8_percent_encode(step.as_str(), RESERVED).append_to(&mut target)?;
    json!(in alloc; {"$ref": target.as_str()})
}

fn pointer_step(alloc: Global, name: &str) -> Result<String, AllocError> {
    let mut step = String::new(alloc);
    for character in name.chars() {
        match character {
            '~' => step.push_str("~0")?,
            '/' => step.push_str("~1")?,
            _ => step.push(character)?,
        }
    }
    Ok(step)
}
