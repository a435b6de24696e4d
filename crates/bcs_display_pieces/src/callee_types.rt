//! The type arguments of a function that is called.

use crate::callee::{Callee, Content};
use bcs_part_labels::put_label;
use std::alloc::{AllocError, Global};

/// How deep types are nested that are read.
const LEVELS: u32 = 32;

/// Appends the types in the list at `name`, as in `<u8, vector<u8>>`, and returns whether they are there.
pub(crate) fn put_types(
    alloc: Global,
    callee: &Callee,
    name: &[u8],
    out: &mut Vec<u8>,
) -> Result<bool, AllocError> {
    put_list(alloc, callee, LEVELS, name, out)
}

#[cycle(types)]
fn put_list(
    alloc: Global,
    callee: &Callee,
    levels: u32,
    name: &[u8],
    out: &mut Vec<u8>,
) -> Result<bool, AllocError> {
    let Some(Content::Count(count)) = callee.content(name) else {
        return Ok(false);
    };
    if *count == 0 {
        return Ok(true);
    }
    if levels == 0 {
        out.extend_from_slice(b"<...>")?;
        return Ok(true);
    }
    for number in 0..*count {
        out.extend_from_slice(if number == 0 {
            b"<".as_slice()
        } else {
            b", ".as_slice()
        })?;
        let step = format!(in alloc; "[{number}]")?;
        let item = joined(alloc, name, step.as_bytes())?;
        if !put_type(alloc, callee, levels - 1, &item, out)? {
            return Ok(false);
        }
    }
    out.push(b'>')?;
    Ok(true)
}

#[cycle(types)]
fn put_type(
    alloc: Global,
    callee: &Callee,
    levels: u32,
    name: &[u8],
    out: &mut Vec<u8>,
) -> Result<bool, AllocError> {
    let Some(Content::Variant(variant)) = callee.content(name) else {
        return Ok(false);
    };
    let mut inner = joined(alloc, name, b"::")?;
    put_label(variant.as_str(), &mut inner)?;
    if variant.as_str().eq_ignore_ascii_case("vector") {
        return put_vector(alloc, callee, levels, &inner, out);
    }
    if variant.as_str().eq_ignore_ascii_case("struct") {
        return put_struct(alloc, callee, levels, &inner, out);
    }
    for byte in variant.as_str().as_bytes() {
        out.push(byte.to_ascii_lowercase())?;
    }
    Ok(true)
}

#[cycle(types)]
fn put_vector(
    alloc: Global,
    callee: &Callee,
    levels: u32,
    name: &[u8],
    out: &mut Vec<u8>,
) -> Result<bool, AllocError> {
    if levels == 0 {
        out.extend_from_slice(b"vector<...>")?;
        return Ok(true);
    }
    out.extend_from_slice(b"vector<")?;
    let is_there = put_type(alloc, callee, levels - 1, name, out)?;
    out.push(b'>')?;
    Ok(is_there)
}

// Aptos calls its types `type_args`, and Sui `type_params`.
#[cycle(types)]
fn put_struct(
    alloc: Global,
    callee: &Callee,
    levels: u32,
    name: &[u8],
    out: &mut Vec<u8>,
) -> Result<bool, AllocError> {
    let address = joined(alloc, name, b".address")?;
    let module = joined(alloc, name, b".module")?;
    let own = joined(alloc, name, b".name")?;
    if !callee.put_named(&address, &module, &own, out)? {
        return Ok(false);
    }
    let mut types = joined(alloc, name, b".type_args")?;
    if callee.content(&types).is_none() {
        types = joined(alloc, name, b".type_params")?;
    }
    put_list(alloc, callee, levels, &types, out)
}

fn joined(alloc: Global, name: &[u8], step: &[u8]) -> Result<Vec<u8>, AllocError> {
    let mut joined = Vec::from_slice(alloc, name)?;
    joined.extend_from_slice(step)?;
    Ok(joined)
}
