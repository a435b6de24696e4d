//! Schemas of hexadecimal strings.

use crate::pieces::{put_member, put_word, type_schema};
use serde_json::{Value, json};
use std::alloc::{AllocError, Global};

/// Two hexadecimal digits for each byte.
const DIGITS: &str = "^(?:[0-9a-fA-F]{2})*$";

const WORDS: &str = "hexadecimal digits, two for each byte";

/// Matches a character that isn't printable ASCII, which `not` then rejects: some validators let `$` match before a
/// final line end.
pub(crate) const UNPRINTABLE: &str = "[^ -~]";

pub(crate) fn digits_schema(alloc: Global) -> Result<Value, AllocError> {
    let mut schema = type_schema(alloc, "string")?;
    put_digits(alloc, &mut schema)?;
    Ok(schema)
}

/// Also accepts a hexadecimal string instead of an array: of exactly `size` bytes, or of any number. `minLength` and
/// `maxLength` saturate; no string is that long.
pub(crate) fn allow_hex(
    alloc: Global,
    size: Option<u64>,
    schema: &mut Value,
) -> Result<(), AllocError> {
    put_member(alloc, "type", json!(in alloc; ["array", "string"])?, schema)?;
    if let Some(size) = size {
        let count = size.saturating_mul(2);
        put_member(alloc, "minLength", Value::from(count), schema)?;
        put_member(alloc, "maxLength", Value::from(count), schema)?;
    }
    put_digits(alloc, schema)
}

/// Adds the pattern and the description of a hexadecimal string.
fn put_digits(alloc: Global, schema: &mut Value) -> Result<(), AllocError> {
    let unprintable = json!(in alloc; {"type": "string", "pattern": UNPRINTABLE})?;
    put_member(alloc, "not", unprintable, schema)?;
    put_word(alloc, "pattern", DIGITS, schema)?;
    put_word(alloc, "description", WORDS, schema)
}
