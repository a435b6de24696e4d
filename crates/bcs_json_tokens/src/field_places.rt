//! Finds the field that a member's name belongs to.
ghost use Rattle.std.specs.Prelude.{◌≡◌, ◌<◌, IfOk, Some, length, option_map, slice_get, string_bytes};
ghost use Rattle.std.specs.Bool.{OnTrue};

use bcs_json_passing::given_up::GivenUp;
use bcs_registry::{Format, Named};
use std::alloc::{AllocError, Global};
use std::collections::BTreeMap;

/// Structs with more fields than this get a map from names to indices. In others, names are compared one by one.
const MOST_SEARCHED: usize = 128;

/// The index of the field `name`. Checks the field at `next` first, since members often come in the order of the
/// fields. `places` caches the map of a struct with many fields.
#[inline(always)]
pub(crate) fn place_of<'a>(
    alloc: Global,
    fields: &'a [Named<Format>],
    name: &str,
    next: usize,
    places: &mut Option<BTreeMap<&'a str, usize>>,
) -> Result<usize, GivenUp>
    ensures within { IfOk result (λ place. place < length fields.now) }
    ensures named { IfOk result (λ place. option_map (λ f. string_bytes f.name) (slice_get fields.now place) ≡ Some name.now) }
{
    if is_named(fields, next, name) {
        return Ok(next);
    }
    if fields.len() > MOST_SEARCHED {
        mapped_place(alloc, fields, name, places)
    } else {
        searched_place(fields, name)
    }
}

// Whether the field at this index exists and has this name.
#[inline(always)]
fn is_named(fields: &[Named<Format>], place: usize, name: &str) -> bool
    ensures within { OnTrue result (place < length fields.now) }
    ensures named { OnTrue result (option_map (λ f. string_bytes f.name) (slice_get fields.now place) ≡ Some name.now) }
{
    place < fields.len() && fields[place].name.as_str() == name
}

// Finds the index of a field by comparing its name with each.
#[inline(never)]
fn searched_place(fields: &[Named<Format>], name: &str) -> Result<usize, GivenUp>
    ensures within { IfOk result (λ place. place < length fields.now) }
    ensures named { IfOk result (λ place. option_map (λ f. string_bytes f.name) (slice_get fields.now place) ≡ Some name.now) }
{
    for place in 0..fields.len() {
        if is_named(fields, place, name) {
            return Ok(place);
        }
    }
    Err(GivenUp::Unusual)
}

// Finds the index of a field in the map, which the first call builds. Compares the name again, so that no contract has
// to say what the map contains.
#[inline(never)]
fn mapped_place<'a>(
    alloc: Global,
    fields: &'a [Named<Format>],
    name: &str,
    places: &mut Option<BTreeMap<&'a str, usize>>,
) -> Result<usize, GivenUp>
    ensures within { IfOk result (λ place. place < length fields.now) }
    ensures named { IfOk result (λ place. option_map (λ f. string_bytes f.name) (slice_get fields.now place) ≡ Some name.now) }
{
    if places.is_none() {
        *places = Some(places_by_name(alloc, fields)?);
    }
    let place = known_place(places, name).ok_or(GivenUp::Unusual)?;
    if is_named(fields, place, name) {
        Ok(place)
    } else {
        Err(GivenUp::Unusual)
    }
}

fn known_place(places: &Option<BTreeMap<&str, usize>>, name: &str) -> Option<usize> {
    match places {
        Some(places) => places.get(name).copied(),
        None => None,
    }
}

// The index of each field by its name.
fn places_by_name<'a>(
    alloc: Global,
    fields: &'a [Named<Format>],
) -> Result<BTreeMap<&'a str, usize>, AllocError> {
    let mut places = BTreeMap::new(alloc);
    for place in 0..fields.len() {
        places.insert(fields[place].name.as_str(), place)?;
    }
    Ok(places)
}
