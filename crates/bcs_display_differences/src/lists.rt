//! Pairs the elements of two lists.

use crate::anchors::anchors_of;
use crate::outline::Outline;
use crate::walk::Pair;
use std::alloc::{AllocError, Global};

/// The elements of two lists.
#[derive(Drop)]
struct Lists<'v> {
    /// The index of each part.
    a: Vec<usize>,
    b: Vec<usize>,
    a_bytes: Vec<&'v [u8]>,
    b_bytes: Vec<&'v [u8]>,
}

/// Some elements of the first list, and some of the second: from the first indexes to before the second ones.
#[derive(Clone, Copy)]
pub(crate) struct Span {
    pub a: (usize, usize),
    pub b: (usize, usize),
}

/// The elements of two lists in pairs. Equal ones at the front and at the back are paired, and those in the middle by index or
/// by anchors, whichever leaves fewer that differ or have no partner.
pub(crate) fn elements_of<'v>(
    alloc: Global,
    (a, b): (&Outline<'v>, &Outline<'v>),
    (first, second): (usize, usize),
) -> Result<Vec<Pair>, AllocError> {
    let lists = Lists {
        a: a.inside(alloc, first)?,
        b: b.inside(alloc, second)?,
        a_bytes: bytes_of(alloc, a, first)?,
        b_bytes: bytes_of(alloc, b, second)?,
    };
    let middle = lists.middle();
    let by_index = lists.by_index(alloc, middle)?;
    let by_anchors = lists.by_anchors(alloc, middle)?;
    if cost_of((a, b), &by_anchors) < cost_of((a, b), &by_index) {
        Ok(by_anchors)
    } else {
        Ok(by_index)
    }
}

fn bytes_of<'v>(
    alloc: Global,
    value: &Outline<'v>,
    part: usize,
) -> Result<Vec<&'v [u8]>, AllocError> {
    let mut list = Vec::new(alloc);
    for element in value.inside(alloc, part)?.iter() {
        list.push(value.bytes_of(*element))?;
    }
    Ok(list)
}

// The number of pairs that differ or have only one element.
fn cost_of((a, b): (&Outline<'_>, &Outline<'_>), pairs: &[Pair]) -> usize {
    let mut cost: usize = 0;
    for pair in pairs {
        let is_equal = match (pair.a, pair.b) {
            (Some(x), Some(y)) => a.bytes_of(x) == b.bytes_of(y),
            _ => false,
        };
        cost = cost.saturating_add(usize::from(!is_equal));
    }
    cost
}

impl<'v> Lists<'v> {
    // What is left between the equal elements at the front and at the back.
    fn middle(&self) -> Span {
        let (a, b) = (self.a_bytes.len(), self.b_bytes.len());
        let least = a.min(b);
        let mut front: usize = 0;
        for (x, y) in self.a_bytes.iter().zip(&self.b_bytes) {
            if *x != *y {
                break;
            }
            front = front.saturating_add(1);
        }
        let mut back: usize = 0;
        for (x, y) in self.a_bytes.iter().rev().zip(self.b_bytes.iter().rev()) {
            if back >= least.saturating_sub(front) || *x != *y {
                break;
            }
            back = back.saturating_add(1);
        }
        Span {
            a: (front, a.saturating_sub(back)),
            b: (front, b.saturating_sub(back)),
        }
    }

    fn by_index(&self, alloc: Global, span: Span) -> Result<Vec<Pair>, AllocError> {
        let mut pairs = Vec::new(alloc);
        self.put_by_index(span, &mut pairs)?;
        Ok(pairs)
    }

    // The first with the first, and so on. The rest of the longer list has no partner.
    fn put_by_index(&self, span: Span, pairs: &mut Vec<Pair>) -> Result<(), AllocError> {
        let a = self.a.get(span.a.0..span.a.1).unwrap_or(&[]);
        let b = self.b.get(span.b.0..span.b.1).unwrap_or(&[]);
        for index in 0..a.len().max(b.len()) {
            pairs.push(Pair {
                a: a.get(index).copied(),
                b: b.get(index).copied(),
            })?;
        }
        Ok(())
    }

    // Each anchor with its partner, and what is between two anchors by index.
    fn by_anchors(&self, alloc: Global, middle: Span) -> Result<Vec<Pair>, AllocError> {
        let mut pairs = Vec::new(alloc);
        let mut rest = middle;
        for (a, b) in anchors_of(alloc, &self.a_bytes, &self.b_bytes, middle)?.iter() {
            let before = Span {
                a: (rest.a.0, *a),
                b: (rest.b.0, *b),
            };
            self.put_by_index(before, &mut pairs)?;
            rest.a.0 = a.saturating_add(1);
            rest.b.0 = b.saturating_add(1);
        }
        self.put_by_index(rest, &mut pairs)?;
        Ok(pairs)
    }
}
