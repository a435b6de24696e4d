//! Schemas of formats.

use crate::digits::digits_schema;
use crate::lists::{elements_schema, entries_schema, row_schema};
use crate::pieces::{option_schema, reject_all, type_schema};
use crate::references::{container_reference, whole_number_reference};
use crate::whole_numbers::WholeNumbers;
use bcs_registry::{Format, Registry};
use bcs_registry_model::{Kind, Scalar};
use serde_json::Value;
use std::alloc::{AllocError, Global};

/// The schema of a format. It refers to the definitions of the containers and integer formats that the format mentions.
#[cycle(formats)]
pub(crate) fn format_schema(
    alloc: Global,
    registry: &Registry,
    format: &Format,
) -> Result<Value, AllocError> {
    match format {
        Format::TypeName(name) => container_reference(alloc, registry, name.as_str()),
        Format::Opt(content) => option_schema(alloc, format_schema(alloc, registry, content)?),
        Format::Seq(element) => {
            let items = format_schema(alloc, registry, element)?;
            elements_schema(alloc, element, items, None)
        }
        Format::Map(key, value) => {
            let key = format_schema(alloc, registry, key)?;
            entries_schema(alloc, key, format_schema(alloc, registry, value)?)
        }
        Format::Tuple(formats) => formats_schema(alloc, registry, formats),
        Format::TupleArray(element, size) => {
            let items = format_schema(alloc, registry, element)?;
            elements_schema(alloc, element, items, Some(*size))
        }
        _ => scalar_schema(alloc, registry, format),
    }
}

fn scalar_schema(alloc: Global, registry: &Registry, format: &Format) -> Result<Value, AllocError> {
    let Kind::Scalar(scalar) = format.kind() else {
        return reject_all(alloc, "the format has parts");
    };
    match scalar {
        Scalar::Unit => type_schema(alloc, "null"),
        Scalar::Bool => type_schema(alloc, "boolean"),
        Scalar::Whole(number) => {
            whole_number_reference(alloc, registry, WholeNumbers::of(number))
        }
        Scalar::Unsupported(_) => {
            let word = scalar.word();
            reject_all(
                alloc,
                format!(in alloc; "no value of {word} is supported")?.as_str(),
            )
        }
        Scalar::Str => type_schema(alloc, "string"),
        Scalar::Bytes => digits_schema(alloc),
    }
}

/// The schema of an array with one value of each format.
#[cycle(formats)]
pub(crate) fn formats_schema(
    alloc: Global,
    registry: &Registry,
    formats: &[Format],
) -> Result<Value, AllocError> {
    let mut items = Vec::with_capacity(alloc, formats.len())?;
    for format in formats {
        items.push(format_schema(alloc, registry, format)?)?;
    }
    row_schema(alloc, items)
}
