//! Names of parts, as `bcs explain` prints them, and the PATH arguments for them.

use crate::outline::{Part, Shape};
use bcs_display_text::columns::{put_decimal, put_hex};
use bcs_explain::{Step, Trail};
use bcs_part_labels::{LONGEST_KEY, put_label};
use std::alloc::{AllocError, Global};

/// The name of the part, and its PATH, of a trail to the first piece in it.
pub(crate) fn name_and_path(
    alloc: Global,
    part: &Part,
    trail: &Trail<'_, '_, '_>,
) -> Result<(Vec<u8>, Vec<u8>), AllocError> {
    let (mut name, mut path) = (Vec::new(alloc), Vec::new(alloc));
    let mut named: usize = 0;
    let mut is_in_key = false;
    for step in steps_of(alloc, trail)?.iter().rev() {
        let has_name = !matches!(step, Step::Container(_));
        if named == part.depth && (has_name || part.shape == Shape::Fixed) {
            break;
        }
        named = named.saturating_add(usize::from(has_name));
        is_in_key = is_in_key || matches!(step, Step::Key(_));
        put_name(step, &mut name)?;
        put_word(step, &mut path)?;
    }
    if name.is_empty() {
        name.push(b'.')?;
    }
    if path.is_empty() {
        path.push(b'.')?;
    }
    if is_in_key {
        path = Vec::from_slice(alloc, b"-")?;
    }
    Ok((name, path))
}

// The last step first.
fn steps_of<'r, 'a>(
    alloc: Global,
    trail: &Trail<'_, 'r, 'a>,
) -> Result<Vec<Step<'r, 'a>>, AllocError> {
    let mut steps = Vec::new(alloc);
    let mut rest = trail;
    while let Trail::Below(above, step) = rest {
        steps.push(*step)?;
        rest = above;
    }
    Ok(steps)
}

fn put_name(step: &Step<'_, '_>, out: &mut Vec<u8>) -> Result<(), AllocError> {
    match step {
        Step::Item(number) => put_bracketed(b"[", *number, out),
        Step::Key(number) => put_bracketed(b"[key ", u64::from(*number), out),
        Step::Field(_, name) => {
            out.push(b'.')?;
            put_label(name, out)
        }
        Step::Inner => Ok(out.push(b'?')?),
        Step::Container(_) => Ok(()),
        Step::Variant(_, name) => {
            out.extend_from_slice(b"::")?;
            put_label(name, out)
        }
        Step::Value(number, key) if key.len() > LONGEST_KEY => {
            put_bracketed(b"[value ", u64::from(*number), out)
        }
        Step::Value(_, key) => {
            out.extend_from_slice(b"[key:")?;
            put_hex(key, out)?;
            Ok(out.push(b']')?)
        }
    }
}

fn put_bracketed(word: &[u8], number: u64, out: &mut Vec<u8>) -> Result<(), AllocError> {
    out.extend_from_slice(word)?;
    put_decimal(u128::from(number), out)?;
    Ok(out.push(b']')?)
}

// Appends a step of PATH.
fn put_word(step: &Step<'_, '_>, out: &mut Vec<u8>) -> Result<(), AllocError> {
    if !out.is_empty() {
        out.push(b'/')?;
    }
    match step {
        Step::Item(number) | Step::Field(number, _) => put_decimal(u128::from(*number), out),
        Step::Inner | Step::Container(_) | Step::Variant(_, _) => out.extend_from_slice(b"inner"),
        Step::Key(_) => Ok(()),
        Step::Value(_, key) => {
            out.extend_from_slice(b"key:")?;
            put_hex(key, out)
        }
    }
}
