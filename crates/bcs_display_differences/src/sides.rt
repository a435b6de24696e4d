//! What a line says about a part: its name, where it is, and what it contains.
ghost use Rattle.std.specs.Prelude.{⊤};
ghost use Rattle.bcs_registry_model.specs.View.{shape_of};
ghost use Rattle.bcs_registry_model.specs.WellFormed.{Admits};

use crate::contents::{put_meaning, put_size};
use crate::naming::name_and_path;
use crate::outline::{Outline, Part, Shape};
use crate::walk::Kind;
use bcs_explain::{Expected, Listener, Meaning, Trail, explain};
use bcs_registry::{Format, Registry};
use bcs_value::Limits;
use std::alloc::{AllocError, Global};

/// A part of one of the values.
#[derive(Debug, Drop)]
pub struct Side {
    /// Its name, as `bcs explain` prints it.
    pub name: Vec<u8>,
    /// The PATH argument for it, or `-` if no path leads there.
    pub path: Vec<u8>,
    /// The byte offset at which it begins, and the number of its bytes.
    pub place: u64,
    pub size: u64,
    /// What it is, cut if it is long.
    pub text: Vec<u8>,
    /// All bytes of a part without parts, without the length of a string.
    pub bytes: Option<Vec<u8>>,
}

impl Side {
    /// The whole value with these bytes.
    pub(crate) fn whole(alloc: Global, bytes: &[u8]) -> Result<Side, AllocError> {
        let mut text = Vec::new(alloc);
        put_size(bytes.len(), &mut text)?;
        Ok(Side {
            name: Vec::from_slice(alloc, b".")?,
            path: Vec::from_slice(alloc, b".")?,
            place: 0,
            size: bytes.len() as u64,
            text,
            bytes: None,
        })
    }
}

/// A part that is to be described.
#[derive(Clone, Copy)]
pub(crate) struct Asked {
    pub index: usize,
    pub kind: Kind,
    /// The first byte of a string's content that differs.
    pub from: usize,
}

/// The descriptions of these parts, which are in the order of their bytes.
pub(crate) fn sides_of(
    alloc: Global,
    registry: &Registry,
    format: &Format,
    limits: &Limits,
    value: Outline<'_>,
    asked: &[Asked],
) -> Result<Vec<Side>, AllocError>
    requires { Admits registry.now (shape_of format.now) }
{
    let mut describer = Describer {
        alloc,
        value,
        asked,
        sides: Vec::new(alloc),
        has_lost: false,
    };
    // The bytes were decoded or encoded before, so there is no stop.
    let _ = explain(registry, format, limits, value.bytes, &mut describer);
    let Describer {
        sides,
        has_lost,
        ..
    } = describer;
    if has_lost { Err(AllocError) } else { Ok(sides) }
}

/// A listener that describes parts.
#[derive(Drop)]
struct Describer<'v> {
    alloc: Global,
    value: Outline<'v>,
    asked: &'v [Asked],
    /// Those of the first parts.
    sides: Vec<Side>,
    /// Whether an allocation failed.
    has_lost: bool,
}

impl<'v> Describer<'v> {
    // Describes the next part, if this piece is its last own one, or the first in it.
    fn add(
        &mut self,
        place: u64,
        trail: &Trail<'_, '_, '_>,
        bytes: &[u8],
        meaning: Meaning<'_>,
    ) -> Result<(), AllocError> {
        let Some(asked) = self.asked.get(self.sides.len()).copied() else {
            return Ok(());
        };
        let Some(part) = self.value.parts.get(asked.index).copied() else {
            return Ok(());
        };
        if part.spot() as u64 != place {
            return Ok(());
        }
        let mut side = self.side(asked.index, &part, trail)?;
        put_contents(trail, (&asked, &part), bytes, meaning, &mut side.text)?;
        Ok(self.sides.push(side)?)
    }

    // The description without its text.
    fn side(
        &self,
        index: usize,
        part: &Part,
        trail: &Trail<'_, '_, '_>,
    ) -> Result<Side, AllocError> {
        let (name, path) = name_and_path(self.alloc, part, trail)?;
        let bytes = if part.past > index.saturating_add(1) {
            None
        } else {
            Some(Vec::from_slice(self.alloc, self.value.content_of(part))?)
        };
        Ok(Side {
            name,
            path,
            place: part.start as u64,
            size: part.size() as u64,
            text: Vec::new(self.alloc),
            bytes,
        })
    }
}

impl<'v> Listener for Describer<'v> {
    ghost heard = { λ _ _ _. ⊤ };

    fn hear(
        &mut self,
        place: u64,
        bytes: &[u8],
        trail: &Trail<'_, '_, '_>,
        meaning: Meaning<'_>,
        _: u32,
    ) {
        if !self.has_lost {
            self.has_lost = self.add(place, trail, bytes, meaning).is_err();
        }
    }

    fn halt(&mut self, _: &Trail<'_, '_, '_>, _: Expected<'_>) {}
}

// Appends what the part is. Of a part with parts, this is what its own piece says, and its size.
fn put_contents(
    trail: &Trail<'_, '_, '_>,
    (asked, part): (&Asked, &Part),
    bytes: &[u8],
    meaning: Meaning<'_>,
    out: &mut Vec<u8>,
) -> Result<(), AllocError> {
    if part.shape == Shape::Fixed {
        return put_size(part.size(), out);
    }
    put_meaning(trail, bytes, meaning, asked.from, out)?;
    if asked.kind == Kind::Length || !has_size(meaning) {
        return Ok(());
    }
    out.extend_from_slice(b", ")?;
    put_size(part.size(), out)
}

// Whether a description is followed by the size of the part.
fn has_size(meaning: Meaning<'_>) -> bool {
    match meaning {
        Meaning::Length(_, count) => count > 0,
        Meaning::Option(_) | Meaning::Variant(_, _) => true,
        _ => false,
    }
}
