//! The fields of a struct by their names, which is the order of an object's members.
ghost use Rattle.std.specs.Prelude.{◌≡◌, ◌<◌, ℕ, IfOk, length, map, true};
ghost use Rattle.std.specs.List.{All};
ghost use Rattle.std.specs.Map.{values_of};
ghost use Rattle.serde_json.specs.Data.{Data};
ghost use Rattle.bcs_json_printer.specs.Places.{IsOrder, name_of, placed, put_from};

use bcs_registry::{Format, Named};
use serde::Serializer;
use std::alloc::{AllocError, Global};
use std::cmp::Ordering;
use std::collections::BTreeMap;

/// The place of each field by its name, in the order of the names' bytes. Of fields with one name the first stays.
pub(crate) fn places_of<'a>(
    alloc: Global,
    fields: &'a [Named<Format>],
) -> Result<BTreeMap<&'a str, usize>, AllocError>
    ensures order { IfOk result (λ m. (at : ℕ → Data) → placed at m.entries ≡ put_from at 0 (map name_of fields.now)) }
    ensures within { IfOk result (λ m. All (λ i. i < length fields.now) (values_of m.entries)) }
{
    let mut places = BTreeMap::new(alloc);
    let mut left = fields.len();
    while left > 0 {
        left -= 1;
        drop(places.insert(fields[left].name.as_str(), left)?);
    }
    Ok(places)
}

/// The same for a serializer. Want of memory is told by `custom`, the one maker of a serializer's errors.
#[inline(never)]
pub(crate) fn sent_places<'a, S: Serializer>(
    alloc: Global,
    fields: &'a [Named<Format>],
    out: &S,
) -> Result<BTreeMap<&'a str, usize>, S::Error>
    ensures order { IfOk result (λ m. (at : ℕ → Data) → placed at m.entries ≡ put_from at 0 (map name_of fields.now)) }
    ensures within { IfOk result (λ m. All (λ i. i < length fields.now) (values_of m.entries)) }
{
    match places_of(alloc, fields) {
        Ok(places) => Ok(places),
        Err(_) => Err(out.custom("out of memory")),
    }
}

/// Whether these are the places of all fields, in ascending order of their names.
#[inline(never)]
pub(crate) fn is_order(fields: &[Named<Format>], order: &[u32]) -> bool
    ensures { result ≡ true → IsOrder fields.now order.now }
{
    if order.len() != fields.len() {
        return false;
    }
    let Some((first, rest)) = order.split_first() else {
        return true;
    };
    let mut before = *first as usize;
    if before >= fields.len() {
        return false;
    }
    for place in rest {
        let place = *place as usize;
        if place >= fields.len() {
            return false;
        }
        match fields[before]
            .name
            .as_str()
            .cmp(fields[place].name.as_str())
        {
            Ordering::Less => before = place,
            Ordering::Equal | Ordering::Greater => return false,
        }
    }
    true
}
