//! Makes the outline of a value from its pieces.
ghost use Rattle.std.specs.Prelude.{⊤};
ghost use Rattle.bcs_registry_model.specs.View.{shape_of};
ghost use Rattle.bcs_registry_model.specs.WellFormed.{Admits};

use crate::outline::{Part, Shape};
use bcs_explain::{Counted, Expected, Listener, Meaning, Step, Trail, explain};
use bcs_registry::{Format, Registry};
use bcs_value::Limits;
use std::alloc::{AllocError, Global};

/// The parts of the value that `bytes` encodes.
pub(crate) fn parts_of(
    alloc: Global,
    registry: &Registry,
    format: &Format,
    limits: &Limits,
    bytes: &[u8],
) -> Result<Vec<Part>, AllocError>
    requires { Admits registry.now (shape_of format.now) }
{
    let mut outliner = Outliner {
        alloc,
        parts: Vec::new(alloc),
        open: Vec::new(alloc),
        has_lost: false,
    };
    // The bytes were decoded or encoded before, so there is no stop.
    let _ = explain(registry, format, limits, bytes, &mut outliner);
    outliner.close(0, bytes.len());
    if outliner.has_lost {
        Err(AllocError)
    } else {
        Ok(outliner.parts)
    }
}

/// A listener that stores the parts that it has received.
#[derive(Drop)]
struct Outliner {
    alloc: Global,
    parts: Vec<Part>,
    /// The parts that the last piece is in, from the whole value down: the number of the step to each, and its index.
    open: Vec<(u64, usize)>,
    /// Whether an allocation failed.
    has_lost: bool,
}

impl Outliner {
    fn add(
        &mut self,
        place: usize,
        size: usize,
        trail: &Trail<'_, '_, '_>,
        meaning: Meaning<'_>,
    ) -> Result<(), AllocError> {
        let steps = steps_of(self.alloc, trail)?;
        let kept = shared(&steps, &self.open);
        self.close(kept, place);
        for step in steps.iter().skip(kept) {
            self.begin(*step, place)?;
        }
        let Some((_, index)) = self.open.last() else {
            return Ok(());
        };
        if let Some(part) = self.parts.get_mut(*index) {
            describe(part, place, size, meaning);
        }
        Ok(())
    }

    fn begin(&mut self, step: u64, start: usize) -> Result<(), AllocError> {
        let index = self.parts.len();
        let is_key = step % 2 == 0 && self.is_in_map();
        self.parts.push(Part {
            shape: Shape::Fixed,
            number: 0,
            start,
            end: start,
            content: start,
            depth: self.open.len(),
            is_key,
            past: index,
        })?;
        Ok(self.open.push((step, index))?)
    }

    // Whether the next step is one to a key or a value.
    fn is_in_map(&self) -> bool {
        let Some((_, index)) = self.open.last() else {
            return false;
        };
        matches!(self.parts.get(*index), Some(part) if part.shape == Shape::Map)
    }

    // Ends the open parts, except for this many.
    fn close(&mut self, kept: usize, place: usize) {
        let past = self.parts.len();
        for _ in kept..self.open.len() {
            let Some((_, index)) = self.open.pop() else {
                return;
            };
            if let Some(part) = self.parts.get_mut(index) {
                part.end = place;
                part.past = past;
            }
        }
    }
}

impl Listener for Outliner {
    ghost heard = { λ _ _ _. ⊤ };

    fn hear(
        &mut self,
        place: u64,
        bytes: &[u8],
        trail: &Trail<'_, '_, '_>,
        meaning: Meaning<'_>,
        _: u32,
    ) {
        if !self.has_lost {
            self.has_lost = self
                .add(place as usize, bytes.len(), trail, meaning)
                .is_err();
        }
    }

    fn halt(&mut self, _: &Trail<'_, '_, '_>, _: Expected<'_>) {}
}

// What a piece says about its part.
fn describe(part: &mut Part, place: usize, size: usize, meaning: Meaning<'_>) {
    if part.shape != Shape::Fixed {
        // the content of a string, whose length came before
        return;
    }
    let (shape, number) = match meaning {
        Meaning::Truth(_) | Meaning::Unsigned(_) | Meaning::Signed(_, _) => (Shape::Scalar, 0),
        Meaning::Length(Counted::Text, count) => (Shape::Text, count),
        Meaning::Length(Counted::Bytes | Counted::Octets, count) => (Shape::Bytes, count),
        Meaning::Length(Counted::List, count) => (Shape::List, count),
        Meaning::Length(Counted::Map, count) => (Shape::Map, count),
        Meaning::Text(_) => (Shape::Text, 0),
        Meaning::Bytes(_) | Meaning::Octets => (Shape::Bytes, 0),
        Meaning::Option(is_present) => (Shape::Option, u32::from(is_present)),
        Meaning::Variant(number, _) => (Shape::Variant, number),
    };
    part.shape = shape;
    part.number = number;
    if matches!(
        meaning,
        Meaning::Length(Counted::Text | Counted::Bytes | Counted::Octets, _)
    ) {
        part.content = place.saturating_add(size);
    }
}

// The numbers of the steps from the whole value down. The first is that of the whole value itself. Steps from one part to
// different parts have different numbers.
fn steps_of(alloc: Global, trail: &Trail<'_, '_, '_>) -> Result<Vec<u64>, AllocError> {
    let mut steps = Vec::new(alloc);
    let mut rest = trail;
    while let Trail::Below(above, step) = rest {
        if let Some(number) = number_of(step) {
            steps.push(number)?;
        }
        rest = above;
    }
    steps.push(0)?;
    steps.as_mut_slice().reverse();
    Ok(steps)
}

// None: a step into a container has no name, so it leads to the same part.
fn number_of(step: &Step<'_, '_>) -> Option<u64> {
    match step {
        Step::Item(number) | Step::Field(number, _) => Some(*number),
        Step::Inner => Some(0),
        Step::Container(_) => None,
        Step::Variant(number, _) => Some(u64::from(*number)),
        Step::Key(number) => Some(2 * u64::from(*number)),
        Step::Value(number, _) => Some(2 * u64::from(*number) + 1),
    }
}

// The number of parts that contain the last piece and this one.
fn shared(steps: &[u64], open: &[(u64, usize)]) -> usize {
    let mut count: usize = 0;
    for (step, (other, _)) in steps.iter().zip(open) {
        if step != other {
            break;
        }
        count = count.saturating_add(1);
    }
    count
}
