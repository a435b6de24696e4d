//! Reads the parts of a value, up to the end of their array or object.
ghost use Rattle.std.specs.Prelude.{◌≡◌, IfErr, IfOk, Some, map, true};
ghost use Rattle.bcs_registry_model.specs.View.{field_of, formats_shapes, shape_of};
ghost use Rattle.bcs_registry_model.specs.WellFormed.{are_distinct};
ghost use Rattle.bcs_value_model.specs.View.{tree_of, items_trees, entries_pairs};
ghost use Rattle.bcs_json_spec.specs.JsonContent.{of};
ghost use Rattle.bcs_json_spec.specs.Look.{shape_count};
ghost use Rattle.bcs_json_spec.specs.Place.{each_parts, entry_parts, field_parts, item_parts, pair_parts};
ghost use Rattle.bcs_json_spec.specs.Reading.{read_data};
ghost use Rattle.bcs_json_spec.specs.Reading as spec;
ghost use Rattle.serde_json.specs.Data.{array};
ghost use Rattle.bcs_json_passing.specs.Passing.{IfRefused};
ghost use Rattle.bcs_json_tokens.specs.Tokens.{AreItems, AreMembers, AreEach, AreRefused, CountedRefused, IsRead, IsRefused, MembersRefused};

use crate::field_places::place_of;
use crate::numbers::next_numbers;
use crate::reading::next_value;
use crate::refused_fields::{refused_field, refused_name};
use crate::slots::{empty_slots, fill, filled};
use bcs_json_passing::given_up::GivenUp;
use bcs_json_passing::refusing::{refused, refused_item, refused_items};
use bcs_json_passing::steps::{inside, next_member};
use bcs_json_spec::JsonFault;
use bcs_registry::{Format, Named, Registry};
use bcs_registry_model::IntegerKind;
use bcs_value_model::Value;
use json::{Reader, Token};
use std::alloc::Global;

/// Reads items of one format, up to the end of the array. If one is refused, `wanted` is how many there should be.
#[cycle(walk)]
pub(crate) fn next_items(
    alloc: Global,
    registry: &Registry,
    element: &Format,
    wanted: Option<u64>,
    left: u32,
    depth: usize,
    reader: &mut Reader<'_>,
) -> Result<Vec<Value>, GivenUp>
    ensures read { IfOk result (λ v. AreItems (spec.read_all (read_data registry.now left (of (shape_of element.now)))) depth reader.old reader.new (items_trees v.items)) }
    ensures refused { IfErr result (IfRefused (CountedRefused registry.now wanted (spec.read_all (read_data registry.now left (of (shape_of element.now)))) (item_parts left (shape_of element.now) 0) depth reader.old reader.new)) }
{
    if let Some(number) = IntegerKind::of(element) {
        return next_numbers(alloc, number, wanted, depth, reader);
    }
    let mut found = Vec::new(alloc);
    'items: while !reader.take_end_array() {
        match next_value(alloc, registry, element, left, depth, reader) {
            Ok(value) => found.push(value)?,
            Err(given_up) => {
                return Err(refused_item(alloc, found.len(), wanted, given_up, depth, reader));
            }
        }
    }
    Ok(found)
}

/// Reads one item of each format, up to the end of the array.
#[cycle(walk)]
pub(crate) fn next_each(
    alloc: Global,
    registry: &Registry,
    formats: &[Format],
    left: u32,
    depth: usize,
    reader: &mut Reader<'_>,
) -> Result<Vec<Value>, GivenUp>
    ensures read { IfOk result (λ v. AreEach (spec.read_named registry.now left) (formats_shapes formats.now) depth reader.old reader.new (items_trees v.items)) }
    ensures refused { IfErr result (IfRefused (CountedRefused registry.now (Some (shape_count (formats_shapes formats.now))) (spec.read_each (spec.read_named registry.now left) (formats_shapes formats.now))
        (each_parts left (formats_shapes formats.now) 0) depth reader.old reader.new)) }
{
    let mut found = Vec::with_capacity(alloc, formats.len())?;
    for format in formats {
        if reader.take_end_array() {
            return Err(GivenUp::here(alloc, JsonFault::BadShape));
        }
        match next_value(alloc, registry, format, left, depth, reader) {
            Ok(value) => found.push(value)?,
            Err(given_up) => {
                let number = found.len();
                let wanted = Some(formats.len() as u64);
                return Err(refused_item(alloc, number, wanted, given_up, depth, reader));
            }
        }
    }
    if reader.take_end_array() {
        Ok(found)
    } else {
        Err(refused_items(alloc, depth, reader))
    }
}

/// Reads the entries of a map, up to the end of the array.
#[cycle(walk)]
pub(crate) fn next_pairs(
    alloc: Global,
    registry: &Registry,
    key: &Format,
    content: &Format,
    left: u32,
    depth: usize,
    reader: &mut Reader<'_>,
) -> Result<Vec<(Value, Value)>, GivenUp>
    ensures read { IfOk result (λ v. AreItems (spec.read_pairs (read_data registry.now left (of (shape_of key.now))) (read_data registry.now left (of (shape_of content.now)))) depth reader.old reader.new (entries_pairs v.items)) }
    ensures refused { IfErr result (IfRefused (AreRefused registry.now (spec.read_pairs (read_data registry.now left (of (shape_of key.now))) (read_data registry.now left (of (shape_of content.now))))
        (entry_parts left (shape_of key.now) (shape_of content.now) 0) depth reader.old reader.new)) }
{
    let mut found = Vec::new(alloc);
    'entries: while !reader.take_end_array() {
        match next_entry(alloc, registry, key, content, left, depth, reader) {
            Ok(entry) => found.push(entry)?,
            Err(given_up) => {
                return Err(refused_item(alloc, found.len(), None, given_up, depth, reader));
            }
        }
    }
    Ok(found)
}

/// Reads an array with a key and its value.
#[cycle(walk)]
fn next_entry(
    alloc: Global,
    registry: &Registry,
    key: &Format,
    content: &Format,
    left: u32,
    depth: usize,
    reader: &mut Reader<'_>,
) -> Result<(Value, Value), GivenUp>
    ensures read { IfOk result (λ p. IsRead (spec.read_pair (read_data registry.now left (of (shape_of key.now))) (read_data registry.now left (of (shape_of content.now)))) depth reader.old reader.new (tree_of p.0, tree_of p.1)) }
    ensures refused { IfErr result (IfRefused (IsRefused registry.now (spec.read_pair (read_data registry.now left (of (shape_of key.now))) (read_data registry.now left (of (shape_of content.now))))
        (pair_parts left (shape_of key.now) (shape_of content.now)) depth reader.old reader.new)) }
{
    let token = reader.next().ok_or(GivenUp::Unusual)?;
    match token {
        Token::BeginArray => {
            let inner = inside(depth)?;
            next_two(alloc, registry, key, content, left, inner, reader)
        }
        _ => Err(refused(alloc, JsonFault::BadShape, token, depth, reader)),
    }
}

/// Reads a key and its value, and the end of their array.
#[cycle(walk)]
fn next_two(
    alloc: Global,
    registry: &Registry,
    key: &Format,
    content: &Format,
    left: u32,
    depth: usize,
    reader: &mut Reader<'_>,
) -> Result<(Value, Value), GivenUp>
    ensures read { IfOk result (λ p. AreItems (λ ds. spec.read_pair (read_data registry.now left (of (shape_of key.now))) (read_data registry.now left (of (shape_of content.now))) (array ds)) depth reader.old reader.new (tree_of p.0, tree_of p.1)) }
    ensures refused { IfErr result (IfRefused (AreRefused registry.now (λ ds. spec.read_pair (read_data registry.now left (of (shape_of key.now))) (read_data registry.now left (of (shape_of content.now))) (array ds))
        (λ ds. pair_parts left (shape_of key.now) (shape_of content.now) (array ds)) depth reader.old reader.new)) }
{
    if reader.take_end_array() {
        let none = GivenUp::here(alloc, JsonFault::BadShape);
        return Err(none);
    }
    match next_value(alloc, registry, key, left, depth, reader) {
        Ok(name) => {
            if reader.take_end_array() {
                let one = GivenUp::here(alloc, JsonFault::BadShape);
                return Err(one);
            }
            match next_value(alloc, registry, content, left, depth, reader) {
                Ok(value) => if reader.take_end_array() {
                    Ok((name, value))
                } else {
                    Err(refused_items(alloc, depth, reader))
                },
                Err(given_up) => {
                    let of_value = refused_item(alloc, 1, Some(2), given_up, depth, reader);
                    Err(of_value)
                }
            }
        }
        Err(given_up) => {
            let of_key = refused_item(alloc, 0, Some(2), given_up, depth, reader);
            Err(of_key)
        }
    }
}

/// Reads one member for each field, in any order, up to the end of the object.
#[cycle(walk)]
pub(crate) fn next_fields(
    alloc: Global,
    registry: &Registry,
    fields: &[Named<Format>],
    left: u32,
    depth: usize,
    reader: &mut Reader<'_>,
) -> Result<Vec<Value>, GivenUp>
    requires { are_distinct (map (λ f. f.0) (map field_of fields.now)) ≡ true }
    ensures read { IfOk result (λ v. AreMembers (spec.read_fields (spec.read_named registry.now left) (map field_of fields.now)) depth reader.old reader.new (items_trees v.items)) }
    ensures refused { IfErr result (IfRefused (MembersRefused registry.now (spec.read_fields (spec.read_named registry.now left) (map field_of fields.now)) (field_parts left (map field_of fields.now)) depth reader.old reader.new)) }
{
    let mut slots = empty_slots(alloc, fields.len())?;
    let mut places = None;
    let mut next = 0;
    'members: while let Some(name) = next_member(reader)? {
        match place_of(alloc, fields, name, next, &mut places) {
            Ok(place) => {
                match next_value(alloc, registry, &fields[place].value, left, depth, reader) {
                    Ok(value) => fill(&mut slots, place, value)?,
                    Err(given_up) => {
                        return Err(refused_field(
                            alloc, fields, &slots, place, given_up, depth, reader,
                        ));
                    }
                }
                next = place + 1;
            }
            Err(_) => return Err(refused_name(alloc, fields, &slots, name, depth, reader)),
        }
    }
    filled(alloc, slots)
}
