//! Anchors: elements that occur exactly once in each of two lists.

use crate::lists::Span;
use std::alloc::{AllocError, Global};

/// An element of one of the lists.
#[derive(Clone, Copy)]
struct Element<'v> {
    bytes: &'v [u8],
    index: usize,
    is_first: bool,
}

/// The indexes of the anchors between these spans, of which both ascend. There are as many as possible.
pub(crate) fn anchors_of(
    alloc: Global,
    a: &[&[u8]],
    b: &[&[u8]],
    span: Span,
) -> Result<Vec<(usize, usize)>, AllocError> {
    let mut all = Vec::new(alloc);
    put_elements(a, span.a, true, &mut all)?;
    put_elements(b, span.b, false, &mut all)?;
    all.sort_unstable_by(|x, y| { x.bytes.cmp(y.bytes) });
    let mut once = once_in_both(alloc, &all)?;
    once.sort_unstable();
    longest_run(alloc, &once)
}

fn put_elements<'v>(
    list: &[&'v [u8]],
    (start, end): (usize, usize),
    is_first: bool,
    out: &mut Vec<Element<'v>>,
) -> Result<(), AllocError> {
    for (index, bytes) in list.iter().enumerate().take(end).skip(start) {
        out.push(Element {
            bytes: *bytes,
            index,
            is_first,
        })?;
    }
    Ok(())
}

// The pairs of equal elements that nothing else is equal to. The elements are in the order of their bytes.
fn once_in_both(alloc: Global, all: &[Element<'_>]) -> Result<Vec<(usize, usize)>, AllocError> {
    let mut once = Vec::new(alloc);
    let mut before: Option<Element<'_>> = None;
    for (place, x) in all.iter().enumerate() {
        let next = all.get(place.saturating_add(1)).copied();
        let after = all.get(place.saturating_add(2)).copied();
        if let Some(y) = next {
            let is_pair = x.bytes == y.bytes && x.is_first != y.is_first;
            if is_pair && !equals(before, x.bytes) && !equals(after, x.bytes) {
                let pair = if x.is_first {
                    (x.index, y.index)
                } else {
                    (y.index, x.index)
                };
                once.push(pair)?;
            }
        }
        before = Some(*x);
    }
    Ok(once)
}

fn equals(element: Option<Element<'_>>, bytes: &[u8]) -> bool {
    match element {
        Some(element) => element.bytes == bytes,
        None => false,
    }
}

// A longest run of these pairs whose second indexes ascend (patience sorting).
fn longest_run(alloc: Global, once: &[(usize, usize)]) -> Result<Vec<(usize, usize)>, AllocError> {
    // for each length of a run, the least second index that ends one, and the pair with it
    let mut ends: Vec<usize> = Vec::new(alloc);
    let mut last: Vec<usize> = Vec::new(alloc);
    let mut before: Vec<Option<usize>> = Vec::new(alloc);
    for (place, (_, index)) in once.iter().enumerate() {
        let length = match ends.binary_search(index) {
            Ok(length) | Err(length) => length,
        };
        before.push(match length.checked_sub(1) {
            Some(shorter) => last.get(shorter).copied(),
            None => None,
        })?;
        set_or_push(length, *index, &mut ends)?;
        set_or_push(length, place, &mut last)?;
    }
    let mut run = Vec::new(alloc);
    let mut next = last.last().copied();
    for _ in 0..once.len() {
        let Some(place) = next else {
            break;
        };
        if let Some(pair) = once.get(place) {
            run.push(*pair)?;
        }
        next = before.get(place).copied().flatten();
    }
    run.as_mut_slice().reverse();
    Ok(run)
}

fn set_or_push(index: usize, value: usize, list: &mut Vec<usize>) -> Result<(), AllocError> {
    match list.get_mut(index) {
        Some(old) => {
            *old = value;
            Ok(())
        }
        None => Ok(list.push(value)?),
    }
}
