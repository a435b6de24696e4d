//! The variants of an enum, in a line about a number that none of them has.

use bcs_display_text::columns::put_decimal;
use bcs_display_text::escaping::put_escaped;
use bcs_num::take_uleb;
use bcs_registry::{Container, Named, Registry, VariantFormat};
use std::alloc::AllocError;
use std::collections::BTreeMap;

/// The number of variants that are listed.
const LISTED: usize = 8;

/// The number of characters that are shown of a name.
const SHOWN: usize = 64;

/// Appends the variant number at the start of `rest`, and the variants of the enum of this name.
pub(crate) fn put_variants(
    registry: &Registry,
    name: &str,
    rest: &[u8],
    out: &mut Vec<u8>,
) -> Result<(), AllocError> {
    if let Ok((number, _)) = take_uleb(rest) {
        out.extend_from_slice(b"; found ")?;
        put_decimal(u128::from(number), out)?;
    }
    match registry.container(name) {
        Some(Container::Enum(variants)) => put_list(variants, out),
        _ => Ok(()),
    }
}

// Appends the number and the name of the first variants, and how many more there are.
fn put_list(
    variants: &BTreeMap<u32, Named<VariantFormat>>,
    out: &mut Vec<u8>,
) -> Result<(), AllocError> {
    if variants.is_empty() {
        return out.extend_from_slice(b"; the enum has no variants");
    }
    out.extend_from_slice(b"; variants: ")?;
    for (place, (number, variant)) in variants.iter().take(LISTED).enumerate() {
        if place > 0 {
            out.extend_from_slice(b", ")?;
        }
        put_decimal(u128::from(*number), out)?;
        out.push(b' ')?;
        put_cut(variant.name.as_str(), out)?;
    }
    let more = variants.len().saturating_sub(LISTED);
    if more == 0 {
        return Ok(());
    }
    out.extend_from_slice(b", ...(")?;
    put_decimal(more as u128, out)?;
    out.extend_from_slice(b" more)")
}

// Appends an escaped name. A long one is cut, so that eight of them fit into a line.
fn put_cut(name: &str, out: &mut Vec<u8>) -> Result<(), AllocError> {
    let mut rest = name.char_indices().skip(SHOWN);
    let Some((end, _)) = rest.next() else {
        return put_escaped(name, out);
    };
    put_escaped(name.get(..end).unwrap_or(""), out)?;
    out.extend_from_slice(b"...(cut)")
}
