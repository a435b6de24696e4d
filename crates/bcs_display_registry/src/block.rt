//! The lines for the contents of a container.

use crate::formats::{put_format, put_row};
use crate::names::put_name;
use bcs_display_text::columns::{put_blanks, put_decimal};
use bcs_registry_model::{Container, Format, Named, VariantFormat};
use std::alloc::AllocError;
use std::collections::BTreeMap;

/// Appends a line for each format, for each field, or for each variant and its fields.
pub(crate) fn put_container(container: &Container, out: &mut Vec<u8>) -> Result<(), AllocError> {
    match container {
        Container::UnitStruct => Ok(()),
        Container::NewTypeStruct(format) => put_format_line(format, out),
        Container::TupleStruct(formats) => put_format_lines(formats, out),
        Container::Struct(fields) => put_fields(fields, 2, out),
        Container::Enum(variants) => put_variants(variants, out),
    }
}

fn put_format_line(format: &Format, out: &mut Vec<u8>) -> Result<(), AllocError> {
    put_blanks(2, out)?;
    put_format(format, out)?;
    Ok(out.push(b'\n')?)
}

fn put_format_lines(formats: &[Format], out: &mut Vec<u8>) -> Result<(), AllocError> {
    for format in formats {
        put_format_line(format, out)?;
    }
    Ok(())
}

/// Appends a line for each field, indented by `indent` spaces.
fn put_fields(
    fields: &[Named<Format>],
    indent: usize,
    out: &mut Vec<u8>,
) -> Result<(), AllocError> {
    for field in fields {
        put_blanks(indent, out)?;
        put_name(field.name.as_str(), out)?;
        out.extend_from_slice(b": ")?;
        put_format(&field.value, out)?;
        out.push(b'\n')?;
    }
    Ok(())
}

fn put_variants(
    variants: &BTreeMap<u32, Named<VariantFormat>>,
    out: &mut Vec<u8>,
) -> Result<(), AllocError> {
    for (number, variant) in variants {
        put_blanks(2, out)?;
        put_decimal(u128::from(*number), out)?;
        out.push(b' ')?;
        put_name(variant.name.as_str(), out)?;
        put_payload(&variant.value, out)?;
    }
    Ok(())
}

/// Appends the payload of a variant, after its name.
fn put_payload(payload: &VariantFormat, out: &mut Vec<u8>) -> Result<(), AllocError> {
    match payload {
        VariantFormat::Unit => {}
        VariantFormat::NewType(format) => {
            out.extend_from_slice(b": ")?;
            put_format(format, out)?;
        }
        VariantFormat::Tuple(formats) => put_row(formats, out)?,
        VariantFormat::Struct(fields) => {
            out.extend_from_slice(b":\n")?;
            return put_fields(fields, 4, out);
        }
    }
    Ok(out.push(b'\n')?)
}
