//! Pairs the entries of two maps by their keys.

use crate::outline::Outline;
use crate::walk::Pair;
use std::alloc::{AllocError, Global};
use std::cmp::Ordering;

/// An entry. A key or a value without bytes has no part.
#[derive(Clone, Copy)]
struct Entry<'v> {
    key: &'v [u8],
    key_part: Option<usize>,
    value: Option<usize>,
}

impl<'v> Entry<'v> {
    // The part that names the entry.
    fn part(&self) -> Option<usize> {
        self.value.or(self.key_part)
    }
}

/// The values of the same key in pairs, and the entries whose key only one map has, in the order of the keys.
pub(crate) fn entries_of(
    alloc: Global,
    (a, b): (&Outline<'_>, &Outline<'_>),
    (first, second): (usize, usize),
) -> Result<Vec<Pair>, AllocError> {
    let (xs, ys) = (list_of(alloc, a, first)?, list_of(alloc, b, second)?);
    let mut pairs = Vec::new(alloc);
    let (mut i, mut j): (usize, usize) = (0, 0);
    for _ in 0..xs.len().saturating_add(ys.len()) {
        let order = match (xs.get(i), ys.get(j)) {
            (Some(x), Some(y)) => x.key.cmp(y.key),
            (Some(_), None) => Ordering::Less,
            (None, Some(_)) => Ordering::Greater,
            (None, None) => break,
        };
        let pair = pair_at(order, xs.get(i), ys.get(j));
        // (the values of a set have no parts)
        if pair.a.is_some() || pair.b.is_some() {
            pairs.push(pair)?;
        }
        i = i.saturating_add(usize::from(!order.is_gt()));
        j = j.saturating_add(usize::from(!order.is_lt()));
    }
    Ok(pairs)
}

fn pair_at(order: Ordering, x: Option<&Entry<'_>>, y: Option<&Entry<'_>>) -> Pair {
    match (order, x, y) {
        (Ordering::Equal, Some(x), Some(y)) => Pair {
            a: x.value,
            b: y.value,
        },
        (Ordering::Less, Some(x), _) => Pair {
            a: x.part(),
            b: None,
        },
        (Ordering::Greater, _, Some(y)) => Pair {
            a: None,
            b: y.part(),
        },
        _ => Pair { a: None, b: None },
    }
}

fn list_of<'v>(
    alloc: Global,
    value: &Outline<'v>,
    map: usize,
) -> Result<Vec<Entry<'v>>, AllocError> {
    let mut entries: Vec<Entry<'v>> = Vec::new(alloc);
    for index in value.inside(alloc, map)?.iter() {
        let is_key = matches!(value.parts.get(*index), Some(part) if part.is_key);
        match entries.last_mut() {
            Some(entry) if !is_key && entry.value.is_none() => entry.value = Some(*index),
            _ => entries.push(Entry {
                key: if is_key { value.bytes_of(*index) } else { b"" },
                key_part: if is_key { Some(*index) } else { None },
                value: if is_key { None } else { Some(*index) },
            })?,
        }
    }
    Ok(entries)
}
