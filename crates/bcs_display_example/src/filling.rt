//! Builds each example in the caller's slot, to keep stack frames small.
ghost use Rattle.std.specs.Prelude.{◌≤◌};

use crate::example_options::ExampleForm;
use crate::fault::ExampleOptionsFault;
use crate::least_examples::LeastExamples;
use crate::node_budget::{spend, spend_copies};
use crate::node_counts::{content_of, format_nodes};
use crate::part::{Content, Part};
use crate::place::{Place, is_opened, opened_within};
use bcs_registry::{Format, Named, Registry};
use bcs_registry_model::{IntegerKind, Kind, Scalar};
use bcs_value::Value;
use bcs_value_model::slot::{
    keep, keep_entry, put_items, put_pairs, wrap_named, wrap_present, wrap_variant,
};
use std::alloc::{AllocError, Global};

/// The inputs for building examples.
#[derive(Clone, Copy)]
pub(crate) struct Maker<'a, 'r> {
    pub(crate) alloc: Global,
    pub(crate) registry: &'r Registry,
    pub(crate) least_examples: &'a LeastExamples<'r>,
}

impl<'a, 'r> Maker<'a, 'r> {
    /// Whether an option, list or map with this element format has an element in this place.
    fn has_element(&self, format: &Format, place: Place<'_, 'r>) -> bool {
        place.form == ExampleForm::Full
            && format_nodes(format, self.least_examples, place.depth).is_some()
    }

    /// The form of the container in this place. A container that is already open gets its least example, so that a full
    /// example is finite. Its nodes are checked before it is built.
    fn form_of(
        &self,
        name: &str,
        place: Place<'_, 'r>,
        left: u32,
    ) -> Result<ExampleForm, ExampleOptionsFault> {
        if place.form == ExampleForm::Full && is_opened(name, place.opened) {
            let least = self.least_examples.within(name, place.depth);
            if least.ok_or(ExampleOptionsFault::NoValue)?.nodes > u64::from(left) {
                return Err(ExampleOptionsFault::TooManyNodes);
            }
            return Ok(ExampleForm::Least);
        }
        Ok(place.form)
    }

    /// The contents of the container, and how many containers may be open at once inside it.
    fn enter(&self, name: &str, form: ExampleForm, depth: u32) -> Option<(Content<'r>, u32)> {
        match form {
            ExampleForm::Least => {
                let least = self.least_examples.within(name, depth)?;
                Some((least.content, least.below))
            }
            ExampleForm::Full => {
                let below = depth.checked_sub(1)?;
                let container = self.registry.container(name)?;
                Some((content_of(container, self.least_examples, below)?, below))
            }
        }
    }
}

/// Builds the example of `format` in `slot`, and subtracts its nodes from `left`.
///
/// `TooManyNodes`: it has more nodes than `left`. This is found only while building, so memory for up to that many
/// nodes may have been allocated. The slot then contains any value.
#[cycle(filling)]
fn fill<'r>(
    maker: &Maker<'_, 'r>,
    format: &'r Format,
    place: Place<'_, 'r>,
    left: &mut u32,
    slot: &mut Value,
) -> Result<(), ExampleOptionsFault>
    ensures fewer { left.new ≤ left.old }
{
    match format {
        Format::TypeName(name) => fill_named(maker, name.as_str(), place, left, slot),
        Format::Tuple(formats) => fill_row(maker, formats, place, left, slot),
        Format::TupleArray(element, size) if *size > 0 => {
            fill_copies(maker, element, *size, place, left, slot)
        }
        Format::Opt(inner) if maker.has_element(inner, place) => {
            fill_option(maker, inner, place, left, slot)
        }
        Format::Seq(element) if maker.has_element(element, place) => {
            fill_copies(maker, element, 1, place, left, slot)
        }
        Format::Map(key, value)
            if maker.has_element(key, place) && maker.has_element(value, place) => {
            fill_entry(maker, key, value, place, left, slot)
        }
        _ => {
            spend(1, left)?;
            put_empty(maker.alloc, format, slot)
        }
    }
}

/// The value without parts: 0, false, absent, or empty.
#[inline(never)]
fn put_empty(alloc: Global, format: &Format, slot: &mut Value) -> Result<(), ExampleOptionsFault> {
    *slot = match format.kind() {
        Kind::Scalar(Scalar::Unit) => Value::Unit,
        Kind::Scalar(Scalar::Bool) => Value::Bool(false),
        Kind::Scalar(Scalar::Whole(IntegerKind::Signed(_))) => Value::Signed(0),
        Kind::Scalar(Scalar::Whole(IntegerKind::Unsigned(_))) => Value::Unsigned(0),
        Kind::Scalar(Scalar::Str) => Value::Text(String::new(alloc)),
        Kind::Scalar(Scalar::Bytes) => Value::Bytes(Vec::new(alloc)),
        Kind::Opt(_) => Value::Absent,
        Kind::Seq(_) | Kind::Tuple(_) | Kind::TupleArray(..) => Value::Items(Vec::new(alloc)),
        Kind::Map(..) => Value::Pairs(Vec::new(alloc)),
        Kind::Scalar(Scalar::Unsupported(_)) | Kind::TypeName(_) => {
            return Err(ExampleOptionsFault::NoValue);
        }
    };
    Ok(())
}

#[cycle(filling)]
fn fill_option<'r>(
    maker: &Maker<'_, 'r>,
    inner: &'r Format,
    place: Place<'_, 'r>,
    left: &mut u32,
    slot: &mut Value,
) -> Result<(), ExampleOptionsFault>
    ensures fewer { left.new ≤ left.old }
{
    spend(1, left)?;
    fill(maker, inner, place, left, slot)?;
    Ok(wrap_present(maker.alloc, slot)?)
}

/// Builds a list or array with `size` copies of one element. The nodes of all copies are charged before any is made.
#[cycle(filling)]
fn fill_copies<'r>(
    maker: &Maker<'_, 'r>,
    element: &'r Format,
    size: u64,
    place: Place<'_, 'r>,
    left: &mut u32,
    slot: &mut Value,
) -> Result<(), ExampleOptionsFault>
    ensures fewer { left.new ≤ left.old }
{
    spend(1, left)?;
    let before = *left;
    fill(maker, element, place, left, slot)?;
    spend_copies(before, size, left)?;
    Ok(repeat(maker.alloc, size, slot)?)
}

/// Replaces the value in `slot` by a list of `count` copies of it.
#[inline(never)]
fn repeat(alloc: Global, count: u64, slot: &mut Value) -> Result<(), AllocError> {
    let mut row = Vec::with_capacity(alloc, count as usize)?;
    for _ in 1..count {
        row.push(slot.copy(alloc)?)?;
    }
    keep(&mut row, slot)?;
    put_items(slot, row);
    Ok(())
}

/// Builds a map with one entry.
#[cycle(filling)]
fn fill_entry<'r>(
    maker: &Maker<'_, 'r>,
    key: &'r Format,
    value: &'r Format,
    place: Place<'_, 'r>,
    left: &mut u32,
    slot: &mut Value,
) -> Result<(), ExampleOptionsFault>
    ensures fewer { left.new ≤ left.old }
{
    spend(1, left)?;
    let mut held = Value::Unit;
    fill(maker, key, place, left, &mut held)?;
    fill(maker, value, place, left, slot)?;
    Ok(put_entry(maker.alloc, &mut held, slot)?)
}

#[inline(never)]
fn put_entry(alloc: Global, key: &mut Value, slot: &mut Value) -> Result<(), AllocError> {
    let mut entries = Vec::with_capacity(alloc, 1)?;
    keep_entry(&mut entries, key, slot)?;
    put_pairs(slot, entries);
    Ok(())
}

#[cycle(filling)]
fn fill_row<'r>(
    maker: &Maker<'_, 'r>,
    formats: &'r [Format],
    place: Place<'_, 'r>,
    left: &mut u32,
    slot: &mut Value,
) -> Result<(), ExampleOptionsFault>
    ensures fewer { left.new ≤ left.old }
{
    spend(1, left)?;
    let mut row = Vec::with_capacity(maker.alloc, formats.len())?;
    for format in formats {
        fill(maker, format, place, left, slot)?;
        keep(&mut row, slot)?;
    }
    put_items(slot, row);
    Ok(())
}

#[cycle(filling)]
fn fill_fields<'r>(
    maker: &Maker<'_, 'r>,
    fields: &'r [Named<Format>],
    place: Place<'_, 'r>,
    left: &mut u32,
    slot: &mut Value,
) -> Result<(), ExampleOptionsFault>
    ensures fewer { left.new ≤ left.old }
{
    spend(1, left)?;
    let mut row = Vec::with_capacity(maker.alloc, fields.len())?;
    for field in fields {
        fill(maker, &field.value, place, left, slot)?;
        keep(&mut row, slot)?;
    }
    put_items(slot, row);
    Ok(())
}

/// Like `fill`, for a part.
#[cycle(filling)]
pub(crate) fn fill_part<'r>(
    maker: &Maker<'_, 'r>,
    part: Part<'r>,
    place: Place<'_, 'r>,
    left: &mut u32,
    slot: &mut Value,
) -> Result<(), ExampleOptionsFault>
    ensures fewer { left.new ≤ left.old }
{
    match part {
        Part::Nothing => {
            spend(1, left)?;
            *slot = Value::Unit;
            Ok(())
        }
        Part::Format(format) => fill(maker, format, place, left, slot),
        Part::Row(formats) => fill_row(maker, formats, place, left, slot),
        Part::Fields(fields) => fill_fields(maker, fields, place, left, slot),
    }
}

/// Like `fill`, for a container.
#[cycle(filling)]
fn fill_named<'r>(
    maker: &Maker<'_, 'r>,
    name: &'r str,
    place: Place<'_, 'r>,
    left: &mut u32,
    slot: &mut Value,
) -> Result<(), ExampleOptionsFault>
    ensures fewer { left.new ≤ left.old }
{
    let form = maker.form_of(name, place, *left)?;
    let entered = maker.enter(name, form, place.depth);
    let (content, depth) = entered.ok_or(ExampleOptionsFault::NoValue)?;
    let opened = opened_within(name, place.opened);
    let inside = Place {
        form,
        depth,
        opened: &opened,
    };
    spend(u64::from(content.nodes_around()), left)?;
    fill_part(maker, content.part, inside, left, slot)?;
    if let Some(number) = content.variant {
        wrap_variant(maker.alloc, number, slot)?;
    }
    Ok(wrap_named(maker.alloc, slot)?)
}
