//! Containers in the order of their names, with a table to find them quickly.
ghost use Rattle.std.specs.Prelude.{◌≡◌, List, Some, map, is_some, length, option_map, IfOk, IfSome};
ghost use Rattle.std.specs.Cmp.Lexicographic.{slice_cmp};
ghost use Rattle.std.specs.List.Sorted.{IsStrictlySortedBy-prop};
ghost use Rattle.std.specs.Ordering.{nat_cmp};
ghost use Rattle.bcs_registry_model.specs.Container.{container_at};
ghost use Rattle.bcs_registry_model.specs.Order.{NamesRise};
ghost use Rattle.bcs_registry_model.specs.View.{container_of, entries_of};

use crate::container::Container;
use crate::format::Format;
use crate::named::Named;
use std::alloc::{AllocError, Global};
use std::cmp::Ordering;
use std::collections::BTreeMap;

/// In the table: no place.
const NOWHERE: u32 = u32::MAX;

/// Containers in ascending order of their names.
#[derive(Drop)]
pub struct Containers {
    entries: Vec<(String, Container)>,
    /// The places of at most two entries for each hash of a name. No contract says what it holds.
    table: Vec<(u32, u32)>,
    /// For each entry that is a struct, the places of its fields in the order of their names. No contract says what it
    /// holds.
    orders: Vec<Vec<u32>>,
    ghost rise: { NamesRise (entries_of entries.items) } by { IsStrictlySortedBy-prop (slice_cmp nat_cmp) (map (λ e. e.0) (entries_of entries.items)) },
}

impl Containers {
    /// The same containers, with a table of their names and the order of their fields. Fails only if memory runs out.
    pub fn of(
        alloc: Global,
        containers: BTreeMap<String, Container>,
    ) -> Result<Containers, AllocError>
        ensures { IfOk result (λ c. c.entries.items ≡ containers.entries) }
    {
        let mut entries = Vec::with_capacity(alloc, containers.len())?;
        for entry in containers {
            entries.push(entry)?;
        }
        let table = table_of(alloc, entries.as_slice())?;
        let orders = orders_of(alloc, entries.as_slice())?;
        Ok(Containers {
            entries,
            table,
            orders,
        })
    }

    /// The container with this name. Takes the time of one comparison of names, or a time logarithmic in the number of
    /// names where many have the same hash.
    pub fn get(&self, name: &str) -> Option<&Container>
        ensures { option_map (λ c. container_of c.now) result ≡ container_at name.now (entries_of self.now.entries.items) }
    {
        match self.get_with_order(name) {
            Some((container, _)) => Some(container),
            None => None,
        }
    }

    /// The same, with the places of its fields in the order of their names. These are a guess that has to be checked:
    /// there are none if it isn't a struct, or if many names have the same hash.
    #[inline(always)]
    pub fn get_with_order(&self, name: &str) -> Option<(&Container, &[u32])>
        ensures { option_map (λ c. container_of c.0.now) result ≡ container_at name.now (entries_of self.now.entries.items) }
    {
        let (first, second) = self.places_of(name);
        if let Some(container) = self.standing(first, name) {
            return Some((container, self.order_at(first)));
        }
        if let Some(container) = self.standing(second, name) {
            return Some((container, self.order_at(second)));
        }
        match searched(self.entries.as_slice(), name) {
            Some(container) => Some((container, &[])),
            None => None,
        }
    }

    /// Whether there is a container with this name.
    pub fn contains_key(&self, name: &str) -> bool
        ensures { result ≡ is_some (container_at name.now (entries_of self.now.entries.items)) }
    {
        self.get(name).is_some()
    }

    /// The number of containers.
    pub fn len(&self) -> usize
        ensures { result ≡ length self.now.entries.items }
    {
        self.entries.len()
    }

    /// The containers, in ascending order of their names.
    pub fn entries(&self) -> &[(String, Container)]
        ensures is { result.now ≡ self.now.entries.items }
        ensures rise { NamesRise (entries_of self.now.entries.items) }
    {
        self.entries.as_slice()
    }

    // The places that the table has for the name.
    #[inline(always)]
    fn places_of(&self, name: &str) -> (u32, u32) {
        match self.table.get(row_of(name, self.table.len())) {
            Some(places) => *places,
            None => (NOWHERE, NOWHERE),
        }
    }

    #[inline(always)]
    fn order_at(&self, place: u32) -> &[u32] {
        match self.orders.get(place as usize) {
            Some(order) => order.as_slice(),
            None => &[],
        }
    }

    // The container at this place, if it has this name.
    #[inline(always)]
    fn standing(&self, place: u32, name: &str) -> Option<&Container>
        ensures { IfSome result (λ c. container_at name.now (entries_of self.now.entries.items) ≡ Some (container_of c.now)) }
    {
        let place = place as usize;
        if place < self.entries.len() && self.entries[place].0.as_str() == name {
            Some(&self.entries[place].1)
        } else {
            None
        }
    }
}

// Finds a container by halving.
#[inline(never)]
fn searched<'a>(entries: &'a [(String, Container)], name: &str) -> Option<&'a Container>
    requires { NamesRise (entries_of entries.now) }
    ensures { option_map (λ c. container_of c.now) result ≡ container_at name.now (entries_of entries.now) }
{
    let mut left = entries;
    loop {
        let (before, from) = left.split_at(left.len() / 2);
        let Some((entry, after)) = from.split_first() else {
            return None;
        };
        match name.cmp(entry.0.as_str()) {
            Ordering::Less => left = before,
            Ordering::Equal => return Some(&entry.1),
            Ordering::Greater => left = after,
        }
    }
}

// For each entry, the places of its fields in the order of their names.
fn orders_of(alloc: Global, entries: &[(String, Container)]) -> Result<Vec<Vec<u32>>, AllocError> {
    let mut orders = Vec::with_capacity(alloc, entries.len())?;
    for (_, container) in entries {
        let order = match container {
            Container::Struct(fields) => order_of(alloc, fields)?,
            _ => Vec::new(alloc),
        };
        orders.push(order)?;
    }
    Ok(orders)
}

// The places of the fields in the order of their names.
fn order_of(alloc: Global, fields: &[Named<Format>]) -> Result<Vec<u32>, AllocError> {
    let places = places_by_name(alloc, fields)?;
    let mut order = Vec::with_capacity(alloc, places.len())?;
    for (_, place) in places.iter() {
        order.push(*place)?;
    }
    Ok(order)
}

fn places_by_name<'a>(
    alloc: Global,
    fields: &'a [Named<Format>],
) -> Result<BTreeMap<&'a str, u32>, AllocError> {
    let mut places = BTreeMap::new(alloc);
    for (place, field) in fields.iter().enumerate() {
        if let Ok(place) = u32::try_from(place) {
            drop(places.insert(field.name.as_str(), place)?);
        }
    }
    Ok(places)
}

// The places of the names, by their hashes. A name whose row is full isn't in the table.
fn table_of(alloc: Global, entries: &[(String, Container)]) -> Result<Vec<(u32, u32)>, AllocError> {
    let rows = entries.len().wrapping_mul(2);
    let mut table = Vec::from_elem(alloc, (NOWHERE, NOWHERE), rows)?;
    for (place, entry) in entries.iter().enumerate() {
        if let Ok(place) = u32::try_from(place) {
            put_place(&mut table, row_of(entry.0.as_str(), rows), place);
        }
    }
    Ok(table)
}

fn put_place(table: &mut Vec<(u32, u32)>, row: usize, place: u32) {
    if row < table.len() {
        let (first, second) = table[row];
        if first == NOWHERE {
            table[row] = (place, second);
        } else if second == NOWHERE {
            table[row] = (first, place);
        }
    }
}

// The row of a name in a table with this number of rows.
#[inline(always)]
fn row_of(name: &str, rows: usize) -> usize {
    ((hash_of(name) >> 32).wrapping_mul(rows as u64) >> 32) as usize
}

// A hash of the length, the first and the last eight bytes.
#[inline(always)]
fn hash_of(name: &str) -> u64 {
    let bytes = name.as_bytes();
    let (first, last) = match (bytes.first_chunk::<8>(), bytes.last_chunk::<8>()) {
        (Some(first), Some(last)) => (u64::from_le_bytes(*first), u64::from_le_bytes(*last)),
        _ => ends_of_short(bytes),
    };
    let mixed = first.wrapping_mul(0x9E37_79B9_7F4A_7C15)
        ^ last.rotate_left(29)
        ^ (bytes.len() as u64);
    mixed.wrapping_mul(0xD1B5_4A32_D192_ED03)
}

// The same for a name of less than eight bytes.
fn ends_of_short(bytes: &[u8]) -> (u64, u64) {
    match (bytes.first_chunk::<4>(), bytes.last_chunk::<4>()) {
        (Some(first), Some(last)) => {
            (
                u32::from_le_bytes(*first) as u64,
                u32::from_le_bytes(*last) as u64,
            )
        }
        _ => match (bytes.first(), bytes.last()) {
            (Some(first), Some(last)) => (*first as u64, *last as u64),
            _ => (0, 0),
        },
    }
}
