//! Differences as JSON objects, one per line. The fields of each struct are in alphabetical order, which is the order in which
//! they are printed.

use crate::comparing::Difference;
use crate::sides::Side;
use serde::Serialize;
use std::alloc::{AllocError, Global};
use std::str::from_utf8;

#[derive(Drop, Serialize)]
struct DifferenceObject<'a> {
    a: Option<SideObject<'a>>,
    b: Option<SideObject<'a>>,
    difference: &'a str,
    #[serde(skip_serializing_if = "Option::is_none")]
    from: Option<u64>,
}

#[derive(Drop, Serialize)]
struct SideObject<'a> {
    #[serde(skip_serializing_if = "Option::is_none")]
    bytes: Option<String>,
    name: &'a str,
    path: Option<&'a str>,
    place: u64,
    size: u64,
    text: &'a str,
}

#[derive(Drop, Serialize)]
struct CountObject {
    differences: usize,
}

/// Appends a difference as an object.
pub fn put_object(difference: &Difference, out: &mut Vec<u8>) -> Result<(), AllocError> {
    let alloc = *out.allocator();
    let object = DifferenceObject {
        a: side_object(alloc, difference.a.as_ref())?,
        b: side_object(alloc, difference.b.as_ref())?,
        difference: difference.kind.name(),
        from: difference.from,
    };
    put(&object, out)
}

/// Appends the last object: how many differences there are.
pub fn put_count(differences: usize, out: &mut Vec<u8>) -> Result<(), AllocError> {
    put(&CountObject { differences }, out)
}

fn side_object<'a>(
    alloc: Global,
    side: Option<&'a Side>,
) -> Result<Option<SideObject<'a>>, AllocError> {
    let Some(side) = side else {
        return Ok(None);
    };
    let bytes = match &side.bytes {
        Some(bytes) => Some(hex::encode(alloc, bytes)?),
        None => None,
    };
    let path = match side.path.as_slice() {
        b"-" => None,
        path => Some(text_of(path)),
    };
    Ok(Some(SideObject {
        bytes,
        name: text_of(&side.name),
        path,
        place: side.place,
        size: side.size,
        text: text_of(&side.text),
    }))
}

// Everything printed here is ASCII. No clause says so.
fn text_of(bytes: &[u8]) -> &str {
    from_utf8(bytes).unwrap_or("")
}

// Only an allocation can fail here: a struct of strings and numbers has no other error. No clause of `serde_json` says so.
fn put<T: Serialize>(object: &T, out: &mut Vec<u8>) -> Result<(), AllocError> {
    let line = serde_json::to_vec(*out.allocator(), object).map_err(|_| AllocError)?;
    out.extend_from_slice(&line)?;
    Ok(out.push(b'\n')?)
}
