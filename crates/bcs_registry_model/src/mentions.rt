//! The container names that formats mention.

use crate::{Container, Format, Named, VariantFormat};
use std::alloc::{AllocError, Global};
use std::collections::BTreeMap;

/// Which names to list.
#[derive(Clone, Copy)]
pub enum Mentions {
    /// All names.
    All,
    /// Names outside lists and maps. A list can have any length, so its sizes don't depend on its elements.
    Unlisted,
    /// Names outside options, lists and maps: every value contains a value of each.
    Needed,
}

/// The names in the formats of the container, from left to right.
pub fn names_in<'a>(
    alloc: Global,
    container: &'a Container,
    told: Mentions,
) -> Result<Vec<&'a str>, AllocError> {
    let mut names = Vec::new(alloc);
    match container {
        Container::UnitStruct => {}
        Container::NewTypeStruct(format) => push_names(format, told, &mut names)?,
        Container::TupleStruct(formats) => push_row_names(formats, told, &mut names)?,
        Container::Struct(fields) => push_field_names(fields, told, &mut names)?,
        Container::Enum(variants) => push_variant_names(variants, told, &mut names)?,
    }
    Ok(names)
}

fn push_variant_names<'a>(
    variants: &'a BTreeMap<u32, Named<VariantFormat>>,
    told: Mentions,
    names: &mut Vec<&'a str>,
) -> Result<(), AllocError> {
    for (_, variant) in variants {
        match &variant.value {
            VariantFormat::Unit => {}
            VariantFormat::NewType(format) => push_names(format, told, names)?,
            VariantFormat::Tuple(formats) => push_row_names(formats, told, names)?,
            VariantFormat::Struct(fields) => push_field_names(fields, told, names)?,
        }
    }
    Ok(())
}

/// Appends the names in the formats of the fields.
pub fn push_field_names<'a>(
    fields: &'a [Named<Format>],
    told: Mentions,
    names: &mut Vec<&'a str>,
) -> Result<(), AllocError> {
    for field in fields {
        push_names(&field.value, told, names)?;
    }
    Ok(())
}

/// Appends the names in each of the formats.
#[cycle(mentions)]
pub fn push_row_names<'a>(
    formats: &'a [Format],
    told: Mentions,
    names: &mut Vec<&'a str>,
) -> Result<(), AllocError> {
    for format in formats {
        push_names(format, told, names)?;
    }
    Ok(())
}

/// Appends the names in the format.
#[cycle(mentions)]
pub fn push_names<'a>(
    format: &'a Format,
    told: Mentions,
    names: &mut Vec<&'a str>,
) -> Result<(), AllocError> {
    match (format, told) {
        (Format::TypeName(name), _) => Ok(names.push(name.as_str())?),
        (Format::Tuple(formats), _) => push_row_names(formats, told, names),
        (Format::TupleArray(inner, _), _)
        | (Format::Opt(inner), Mentions::All | Mentions::Unlisted)
        | (Format::Seq(inner), Mentions::All) => push_names(inner, told, names),
        (Format::Map(key, value), Mentions::All) => {
            push_names(key, told, names)?;
            push_names(value, told, names)
        }
        _ => Ok(()),
    }
}
