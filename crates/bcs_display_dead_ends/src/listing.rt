//! Names in a line: only the first ones of many.

use crate::notation::Notation;
use bcs_display_refusal::put_name;
use bcs_display_text::columns::put_decimal;
use bcs_part_labels::is_plain;
use bcs_registry::{Format, Named, VariantFormat};
use std::alloc::AllocError;
use std::collections::BTreeMap;

// The number of names that are printed.
const MOST: usize = 16;

/// Appends the names of fields.
pub(crate) fn put_fields(
    notation: Notation,
    fields: &[Named<Format>],
    line: &mut Vec<u8>,
) -> Result<(), AllocError> {
    line.extend_from_slice(b"a struct; fields: ")?;
    for (count, field) in fields.iter().enumerate() {
        if count == MOST {
            return put_more(fields.len() - count, line);
        }
        put_comma(count, line)?;
        put_listed(notation, field.name.as_str(), line)?;
    }
    Ok(())
}

/// Appends the names of variants.
pub(crate) fn put_variants(
    notation: Notation,
    variants: &BTreeMap<u32, Named<VariantFormat>>,
    line: &mut Vec<u8>,
) -> Result<(), AllocError> {
    line.extend_from_slice(b"an enum; variants: ")?;
    for (count, variant) in variants.values().enumerate() {
        if count == MOST {
            return put_more(variants.len().saturating_sub(count), line);
        }
        put_comma(count, line)?;
        put_listed(notation, variant.name.as_str(), line)?;
    }
    Ok(())
}

/// Appends a name; where parts have names, in quotes if a step has it in quotes.
pub(crate) fn put_listed(
    notation: Notation,
    name: &str,
    line: &mut Vec<u8>,
) -> Result<(), AllocError> {
    match notation {
        Notation::Name if !is_plain(name.as_bytes()) => {
            line.push(b'"')?;
            put_name(name, line)?;
            Ok(line.push(b'"')?)
        }
        _ => put_name(name, line),
    }
}

fn put_comma(before: usize, line: &mut Vec<u8>) -> Result<(), AllocError> {
    if before == 0 {
        return Ok(());
    }
    line.extend_from_slice(b", ")
}

fn put_more(count: usize, line: &mut Vec<u8>) -> Result<(), AllocError> {
    line.extend_from_slice(b" and ")?;
    put_decimal(count as u128, line)?;
    line.extend_from_slice(b" more")
}
