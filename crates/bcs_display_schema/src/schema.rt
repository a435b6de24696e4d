//! Prints the schema of a format.

use crate::definitions::definitions_of;
use crate::document::{DEFINITIONS, Document};
use crate::formats::format_schema;
use crate::pieces::{put_member, put_word};
use bcs_registry::{Format, Registry};
use serde_json::Value;
use std::alloc::{AllocError, Global};

/// The `$schema` URI, which tells validators the version of JSON Schema.
const DIALECT: &str = "https://json-schema.org/draft/2020-12/schema";

/// The rules that a schema can't express.
const UNSAID: &str =
    "The JSON texts that bcs encode reads, but for what a schema can't say: no two keys of a MAP are equal; a whole number has no point and no exponent, and isn't -0; arrays and objects nest at most 100 deep; the value keeps to the limits of open containers and of nodes; of two members with one name the last is meant.";

/// Returns a JSON Schema (draft 2020-12) for the JSON that `to_bcs` accepts at `format`, indented, without a line end
/// at the end. Its `$comment` lists the rules that a schema can't express. If the format mentions a container that the
/// registry lacks, the schema rejects that part. Fails only if memory runs out.
pub fn schema_text(
    alloc: Global,
    registry: &Registry,
    format: &Format,
) -> Result<String, AllocError> {
    let definitions = definitions_of(alloc, registry, format)?;
    let mut schema = format_schema(alloc, registry, format)?;
    put_word(alloc, "$schema", DIALECT, &mut schema)?;
    put_word(alloc, "$comment", UNSAID, &mut schema)?;
    if !definitions.is_empty() {
        put_member(alloc, DEFINITIONS, Value::Null, &mut schema)?;
    }
    let document = Document {
        alloc,
        registry,
        schema,
        definitions,
    };
    // Only an allocation can fail here. No clause of `serde_json` says so.
    serde_json::to_string_pretty(alloc, &document).map_err(|_| AllocError)
}
