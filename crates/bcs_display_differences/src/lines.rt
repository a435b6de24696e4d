//! Differences as lines for people.

use crate::comparing::Difference;
use crate::sides::Side;
use bcs_display_text::columns::put_decimal;
use std::alloc::AllocError;

const ARROW: &[u8] = b" -> ";

/// Appends a difference as a line.
pub fn put_line(difference: &Difference, out: &mut Vec<u8>) -> Result<(), AllocError> {
    match (&difference.a, &difference.b) {
        (Some(a), Some(b)) => put_both(a, b, out)?,
        (Some(a), None) => put_one(a, b", only in A, at ", out)?,
        (None, Some(b)) => put_one(b, b", only in B, at ", out)?,
        (None, None) => {}
    }
    if let Some(from) = difference.from {
        out.extend_from_slice(b", from byte ")?;
        put_decimal(u128::from(from), out)?;
    }
    Ok(out.push(b'\n')?)
}

fn put_both(a: &Side, b: &Side, out: &mut Vec<u8>) -> Result<(), AllocError> {
    out.extend_from_slice(&a.name)?;
    if a.name.as_slice() != b.name.as_slice() {
        out.extend_from_slice(ARROW)?;
        out.extend_from_slice(&b.name)?;
    }
    out.extend_from_slice(b", at ")?;
    put_decimal(u128::from(a.place), out)?;
    if a.place != b.place {
        out.extend_from_slice(ARROW)?;
        put_decimal(u128::from(b.place), out)?;
    }
    out.extend_from_slice(b": ")?;
    out.extend_from_slice(&a.text)?;
    out.extend_from_slice(ARROW)?;
    out.extend_from_slice(&b.text)
}

fn put_one(side: &Side, words: &[u8], out: &mut Vec<u8>) -> Result<(), AllocError> {
    out.extend_from_slice(&side.name)?;
    out.extend_from_slice(words)?;
    put_decimal(u128::from(side.place), out)?;
    out.extend_from_slice(b": ")?;
    out.extend_from_slice(&side.text)
}
