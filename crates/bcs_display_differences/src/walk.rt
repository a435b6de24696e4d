//! Compares the parts of two values of one format.

use crate::lists::elements_of;
use crate::maps::entries_of;
use crate::outline::{Outline, Part, Shape};
use std::alloc::{AllocError, Global};

/// What differs.
#[derive(Clone, Copy, Debug, PartialEq, Eq)]
pub enum Kind {
    /// A number or a Boolean.
    Value,
    Text,
    Bytes,
    /// The number of elements or entries.
    Length,
    Variant,
    Option,
    /// Only one of the values has the part.
    Only,
}

impl Kind {
    /// Its name in JSON.
    pub fn name(self) -> &'static str {
        match self {
            Kind::Value => "value",
            Kind::Text => "text",
            Kind::Bytes => "bytes",
            Kind::Length => "length",
            Kind::Variant => "variant",
            Kind::Option => "option",
            Kind::Only => "only",
        }
    }
}

/// A part of the first value and one of the second, by their indexes. At most one of them is missing.
#[derive(Clone, Copy)]
pub(crate) struct Pair {
    pub a: Option<usize>,
    pub b: Option<usize>,
}

/// A difference, without names.
#[derive(Clone, Copy)]
pub(crate) struct Found {
    pub kind: Kind,
    pub pair: Pair,
    /// The first byte of a string's content that differs.
    pub from: Option<usize>,
}

/// Two values, and what was found in them.
#[derive(Drop)]
pub(crate) struct Walk<'v> {
    pub alloc: Global,
    pub a: Outline<'v>,
    pub b: Outline<'v>,
    /// What is left to compare, the next one last.
    tasks: Vec<Pair>,
    found: Vec<Found>,
}

impl<'v> Walk<'v> {
    pub(crate) fn new(alloc: Global, a: Outline<'v>, b: Outline<'v>) -> Walk<'v> {
        Walk {
            alloc,
            a,
            b,
            tasks: Vec::new(alloc),
            found: Vec::new(alloc),
        }
    }

    /// All differences, in the order of the bytes. The parts to compare are stored, since values nest deeply.
    pub(crate) fn compare(mut self) -> Result<Vec<Found>, AllocError> {
        self.tasks.push(Pair {
            a: Some(0),
            b: Some(0),
        })?;
        // each step takes another part of one of the values
        let steps = self.a.parts.len().saturating_add(self.b.parts.len());
        for _ in 0..steps {
            let Some(pair) = self.tasks.pop() else {
                break;
            };
            self.compare_pair(pair)?;
        }
        let Walk { found, .. } = self;
        Ok(found)
    }

    fn compare_pair(&mut self, pair: Pair) -> Result<(), AllocError> {
        let (Some(a), Some(b)) = (pair.a, pair.b) else {
            return self.find(Kind::Only, pair, None);
        };
        if self.a.bytes_of(a) == self.b.bytes_of(b) {
            return Ok(());
        }
        match (self.a.parts.get(a).copied(), self.b.parts.get(b).copied()) {
            (Some(first), Some(second)) => self.compare_parts(pair, (a, b), (&first, &second)),
            _ => Ok(()),
        }
    }

    // Two parts whose bytes differ.
    fn compare_parts(
        &mut self,
        pair: Pair,
        (a, b): (usize, usize),
        (first, second): (&Part, &Part),
    ) -> Result<(), AllocError> {
        let has_other_number = first.number != second.number;
        match first.shape {
            Shape::Scalar => self.find(Kind::Value, pair, None),
            Shape::Text => self.find_in_string(Kind::Text, pair, (first, second)),
            Shape::Bytes => self.find_in_string(Kind::Bytes, pair, (first, second)),
            Shape::Option if has_other_number => self.find(Kind::Option, pair, None),
            Shape::Variant if has_other_number => self.find(Kind::Variant, pair, None),
            Shape::Fixed | Shape::Option | Shape::Variant => self.push_inside((a, b)),
            Shape::List | Shape::Map => {
                if has_other_number {
                    self.find(Kind::Length, pair, None)?;
                }
                let below = match first.shape {
                    Shape::Map => entries_of(self.alloc, (&self.a, &self.b), (a, b))?,
                    _ => elements_of(self.alloc, (&self.a, &self.b), (a, b))?,
                };
                self.push_all(&below)
            }
        }
    }

    fn find(&mut self, kind: Kind, pair: Pair, from: Option<usize>) -> Result<(), AllocError> {
        Ok(self.found.push(Found { kind, pair, from })?)
    }

    fn find_in_string(
        &mut self,
        kind: Kind,
        pair: Pair,
        (first, second): (&Part, &Part),
    ) -> Result<(), AllocError> {
        let from = shared(self.a.content_of(first), self.b.content_of(second));
        self.find(kind, pair, Some(from))
    }

    // The parts in two parts that have the same number of them.
    fn push_inside(&mut self, (a, b): (usize, usize)) -> Result<(), AllocError> {
        let first = self.a.inside(self.alloc, a)?;
        let second = self.b.inside(self.alloc, b)?;
        let mut below = Vec::new(self.alloc);
        for (a, b) in first.iter().zip(&second) {
            below.push(Pair {
                a: Some(*a),
                b: Some(*b),
            })?;
        }
        self.push_all(&below)
    }

    fn push_all(&mut self, below: &[Pair]) -> Result<(), AllocError> {
        for pair in below.iter().rev() {
            self.tasks.push(*pair)?;
        }
        Ok(())
    }
}

// The number of bytes at which both begin alike.
fn shared(a: &[u8], b: &[u8]) -> usize {
    let mut count: usize = 0;
    for (x, y) in a.iter().zip(b) {
        if x != y {
            break;
        }
        count = count.saturating_add(1);
    }
    count
}
