//! The differences of two values.
ghost use Rattle.std.specs.Prelude.{◌≡◌, ◌≢◌, IfOk, []};
ghost use Rattle.bcs_registry_model.specs.View.{shape_of};
ghost use Rattle.bcs_registry_model.specs.WellFormed.{Admits};

use crate::outline::Outline;
use crate::outlining::parts_of;
use crate::sides::{Asked, Side, sides_of};
use crate::walk::{Found, Kind, Walk};
use bcs_registry::{Format, Registry};
use bcs_value::Limits;
use std::alloc::{AllocError, Global};

/// A difference.
#[derive(Debug, Drop)]
pub struct Difference {
    pub kind: Kind,
    /// The part of the first value, unless only the second has it.
    pub a: Option<Side>,
    /// That of the second value.
    pub b: Option<Side>,
    /// The first byte that differs, in the content of two strings.
    pub from: Option<u64>,
}

/// Where the values that `a` and `b` encode differ, in the order of the bytes: nothing if and only if these are equal. Fails
/// only if memory runs out.
pub fn differences(
    alloc: Global,
    registry: &Registry,
    format: &Format,
    limits: &Limits,
    a: &[u8],
    b: &[u8],
) -> Result<Vec<Difference>, AllocError>
    requires admitted { Admits registry.now (shape_of format.now) }
    ensures equal { IfOk result (λ list. a.now ≡ b.now → list.items ≡ []) }
    ensures different { IfOk result (λ list. list.items ≡ [] → a.now ≡ b.now) }
{
    if a == b {
        return Ok(Vec::new(alloc));
    }
    let (first, second) = (
        parts_of(alloc, registry, format, limits, a)?,
        parts_of(alloc, registry, format, limits, b)?,
    );
    let (a, b) = (
        Outline {
            bytes: a,
            parts: &first,
        },
        Outline {
            bytes: b,
            parts: &second,
        },
    );
    let found = Walk::new(alloc, a, b).compare()?;
    let (of_a, of_b) = (asked_of_a(alloc, &found)?, asked_of_b(alloc, &found)?);
    let a_sides = sides_of(alloc, registry, format, limits, a, &of_a)?;
    let b_sides = sides_of(alloc, registry, format, limits, b, &of_b)?;
    let list = joined(alloc, &found, a_sides, b_sides)?;
    list_or_whole(alloc, list, a.bytes, b.bytes)
}

// The list, or the whole values if it is empty. The walk finds a difference wherever bytes differ, but that isn't proved.
fn list_or_whole(
    alloc: Global,
    list: Vec<Difference>,
    a: &[u8],
    b: &[u8],
) -> Result<Vec<Difference>, AllocError>
    ensures { IfOk result (λ list. list.items ≢ []) }
{
    if !list.is_empty() {
        return Ok(list);
    }
    let mut list = Vec::new(alloc);
    list.push(whole(alloc, a, b)?)?;
    Ok(list)
}

// The parts of the first value that are to be described.
fn asked_of_a(alloc: Global, found: &[Found]) -> Result<Vec<Asked>, AllocError> {
    let mut asked = Vec::new(alloc);
    for one in found {
        if let Some(index) = one.pair.a {
            asked.push(asked_at(one, index))?;
        }
    }
    Ok(asked)
}

fn asked_of_b(alloc: Global, found: &[Found]) -> Result<Vec<Asked>, AllocError> {
    let mut asked = Vec::new(alloc);
    for one in found {
        if let Some(index) = one.pair.b {
            asked.push(asked_at(one, index))?;
        }
    }
    Ok(asked)
}

fn asked_at(found: &Found, index: usize) -> Asked {
    Asked {
        index,
        kind: found.kind,
        from: found.from.unwrap_or(0),
    }
}

// What was found, with the descriptions.
fn joined(
    alloc: Global,
    found: &[Found],
    a: Vec<Side>,
    b: Vec<Side>,
) -> Result<Vec<Difference>, AllocError> {
    let mut list = Vec::new(alloc);
    let (mut a, mut b) = (a.into_iter(), b.into_iter());
    for one in found {
        let a = match one.pair.a {
            Some(_) => a.next(),
            None => None,
        };
        let b = match one.pair.b {
            Some(_) => b.next(),
            None => None,
        };
        let from = match one.from {
            Some(from) => Some(from as u64),
            None => None,
        };
        list.push(Difference {
            kind: one.kind,
            a,
            b,
            from,
        })?;
    }
    Ok(list)
}

// The whole values as one difference.
fn whole(alloc: Global, a: &[u8], b: &[u8]) -> Result<Difference, AllocError> {
    Ok(Difference {
        kind: Kind::Value,
        a: Some(Side::whole(alloc, a)?),
        b: Some(Side::whole(alloc, b)?),
        from: None,
    })
}
