//! Formats in short notation.

use crate::names::put_name;
use bcs_display_text::columns::put_decimal;
use bcs_registry_model::{Format, Kind};
use std::alloc::AllocError;

/// Appends a format in short notation: the registry's name of a scalar format, or the container's name; `F?` for an
/// option, `[F]` for a list, `{K: V}` for a map, `(F, G)` for a tuple and `[F; 32]` for an array.
#[cycle(formats)]
pub fn put_format(format: &Format, out: &mut Vec<u8>) -> Result<(), AllocError> {
    match format.kind() {
        Kind::Scalar(scalar) => out.extend_from_slice(scalar.word().as_bytes()),
        Kind::TypeName(name) => put_name(name, out),
        Kind::Opt(inner) => put_between(b"", inner, b"?", out),
        Kind::Seq(inner) => put_between(b"[", inner, b"]", out),
        Kind::Map(key, value) => {
            put_between(b"{", key, b": ", out)?;
            put_between(b"", value, b"}", out)
        }
        Kind::Tuple(formats) => put_row(formats, out),
        Kind::TupleArray(inner, size) => {
            put_between(b"[", inner, b"; ", out)?;
            put_decimal(u128::from(size), out)?;
            Ok(out.push(b']')?)
        }
    }
}

#[cycle(formats)]
fn put_between(
    before: &[u8],
    format: &Format,
    behind: &[u8],
    out: &mut Vec<u8>,
) -> Result<(), AllocError> {
    out.extend_from_slice(before)?;
    put_format(format, out)?;
    out.extend_from_slice(behind)
}

/// Appends formats in parentheses.
#[cycle(formats)]
pub(crate) fn put_row(formats: &[Format], out: &mut Vec<u8>) -> Result<(), AllocError> {
    out.push(b'(')?;
    for (i, format) in formats.iter().enumerate() {
        if i > 0 {
            out.extend_from_slice(b", ")?;
        }
        put_format(format, out)?;
    }
    Ok(out.push(b')')?)
}
