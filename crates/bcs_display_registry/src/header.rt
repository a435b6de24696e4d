//! The header line of a container.

use crate::names::put_name;
use crate::sizes::Sizes;
use bcs_display_text::columns::put_decimal;
use bcs_registry_model::Container;
use std::alloc::AllocError;

/// Appends the name, the kind, the sizes if they are given, and a note if no other container uses this one.
pub(crate) fn put_header(
    name: &str,
    container: &Container,
    sizes: Option<&Sizes>,
    is_used: bool,
    out: &mut Vec<u8>,
) -> Result<(), AllocError> {
    put_name(name, out)?;
    out.extend_from_slice(b": ")?;
    out.extend_from_slice(kind_word(container).as_bytes())?;
    if let Some(sizes) = sizes {
        out.extend_from_slice(b", ")?;
        put_sizes(*sizes, out)?;
    }
    if !is_used {
        out.extend_from_slice(b", used by no other")?;
    }
    Ok(out.push(b'\n')?)
}

/// The registry's name for this kind of container.
fn kind_word(container: &Container) -> &'static str {
    match container {
        Container::UnitStruct => "UNITSTRUCT",
        Container::NewTypeStruct(_) => "NEWTYPESTRUCT",
        Container::TupleStruct(_) => "TUPLESTRUCT",
        Container::Struct(_) => "STRUCT",
        Container::Enum(_) => "ENUM",
    }
}

fn put_sizes(sizes: Sizes, out: &mut Vec<u8>) -> Result<(), AllocError> {
    match sizes {
        Sizes::NoValue => out.extend_from_slice(b"no value"),
        Sizes::Bytes { fewest, most: None } => {
            put_count(fewest, out)?;
            out.extend_from_slice(b" or more")
        }
        Sizes::Bytes {
            fewest,
            most: Some(most),
        } if fewest == most => put_count(fewest, out),
        Sizes::Bytes {
            fewest,
            most: Some(most),
        } => {
            put_decimal(u128::from(fewest), out)?;
            out.extend_from_slice(b" to ")?;
            put_decimal(u128::from(most), out)?;
            out.extend_from_slice(b" bytes")
        }
    }
}

fn put_count(count: u64, out: &mut Vec<u8>) -> Result<(), AllocError> {
    put_decimal(u128::from(count), out)?;
    out.extend_from_slice(if count == 1 { b" byte" } else { b" bytes" })
}
