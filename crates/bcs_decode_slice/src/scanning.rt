//! Validates and skips values. Only `value`, `content`, `laid` and `next_key` are inlined, so that each level of a
//! format takes one small stack frame.
ghost use Rattle.std.specs.Prelude.{◌≡◌, ℕ, ◌+◌, ◌<◌, ◌≤◌, ◌^◌, List, None, length, map};
ghost use Rattle.bcs_registry_model.specs.Container as spec;
ghost use Rattle.bcs_registry_model.specs.Container.{content_at, field_shapes, payload_shape};
ghost use Rattle.bcs_registry_model.specs.Layout.{layout_shape};
ghost use Rattle.bcs_registry_model.specs.Shape.{name as name_shape, tuple as tuple_shape};
ghost use Rattle.bcs_registry_model.specs.View.{shape_of, formats_shapes, field_of, payload_of, container_of};
ghost use Rattle.bcs_registry_model.specs.WellFormed.{IsWellFormed};
ghost use Rattle.bcs_decode_spec.specs.Reading.{content_here, items_here, key_here, named_here, pairs_here, skipping};
ghost use Rattle.bcs_key_order.specs.Following.{key_bytes};
ghost use Rattle.bcs_decode_spec.specs.Steps.{skip};
ghost use Rattle.bcs_decode_slice.specs.Passing.{Passes, Onward};

use crate::cursor::{Cursor, node};
use crate::fixed_size_list::skip_fixed_size_list;
use crate::integers::skip_integers;
use crate::opening::opened;
use crate::shallow::{
    bytes_value, counted, enter, flag_value, text_value, truth, unsupported, whole,
};
use bcs_decode_spec::integer_width::integer_width;
use bcs_decode_spec::{Reason, Stop};
use bcs_key_order::following::follows;
use bcs_registry::{Container, Format, Named, Registry, VariantFormat};
use bcs_registry_model::{Kind, Layout, Scalar};

/// Validates and skips one value of `format`. At most `depth` more containers may be opened.
#[cycle(scanning)]
#[inline(always)]
pub fn value<'a>(
    registry: &Registry,
    format: &Format,
    depth: u32,
    cursor: &mut Cursor<'a>,
) -> Result<(), Stop>
    requires room { cursor.old.place + length cursor.old.rest.now < 2 ^ 64 }
    ensures passes { Passes (λ x. x) result (skip registry.now depth (shape_of format.now)) cursor.old cursor.new }
    ensures onward { Onward cursor.old cursor.new }
{
    match format.kind() {
        Kind::Scalar(Scalar::Unit) => node(cursor),
        Kind::Scalar(Scalar::Bool) => truth(cursor),
        Kind::Scalar(Scalar::Whole(number)) => whole(cursor, number.byte_len()),
        Kind::Scalar(Scalar::Unsupported(_)) => unsupported(cursor),
        Kind::Scalar(Scalar::Str) => text_value(cursor),
        Kind::Scalar(Scalar::Bytes) => bytes_value(cursor),
        Kind::TypeName(name) => named(registry, name, depth, cursor),
        Kind::Opt(content) => {
            if flag_value(cursor, Reason::BadOption)? {
                value(registry, content, depth, cursor)
            } else {
                Ok(())
            }
        }
        Kind::Seq(element) => {
            let count = counted(cursor)?;
            elements(registry, element, u64::from(count), depth, cursor)
        }
        Kind::Map(key, content) => {
            let count = counted(cursor)?;
            entries(registry, key, content, count, depth, cursor)
        }
        Kind::Tuple(formats) => tuple(registry, formats, depth, cursor),
        Kind::TupleArray(element, size) => {
            node(cursor)?;
            elements(registry, element, size, depth, cursor)
        }
    }
}

/// Skips `count` values of one format: fixed-size values in one step, and others with one lookup of their container.
#[cycle(scanning)]
#[inline(never)]
pub fn elements<'a>(
    registry: &Registry,
    element: &Format,
    count: u64,
    depth: u32,
    cursor: &mut Cursor<'a>,
) -> Result<(), Stop>
    requires room { cursor.old.place + length cursor.old.rest.now < 2 ^ 64 }
    ensures passes { Passes (λ x. x) result (items_here skipping (skip registry.now depth (shape_of element.now)) count) cursor.old cursor.new }
    ensures onward { Onward cursor.old cursor.new }
{
    if let Some(width) = integer_width(element) {
        return skip_integers(cursor, width, count);
    }
    let gone = skip_fixed_size_list(registry, element, count, depth, cursor);
    if gone == count {
        return Ok(());
    }
    if let Some(container) = registry.named_container(element) {
        return containers(registry, container, count - gone, depth, cursor);
    }
    for _ in gone..count {
        value(registry, element, depth, cursor)?;
    }
    Ok(())
}

/// Skips `count` map entries, whose keys must ascend.
#[cycle(scanning)]
#[inline(never)]
fn entries<'a>(
    registry: &Registry,
    key: &Format,
    content: &Format,
    count: u32,
    depth: u32,
    cursor: &mut Cursor<'a>,
) -> Result<(), Stop>
    requires room { cursor.old.place + length cursor.old.rest.now < 2 ^ 64 }
    ensures passes { Passes (λ x. x) result (pairs_here skipping (skip registry.now depth (shape_of key.now)) (skip registry.now depth (shape_of content.now)) None count) cursor.old cursor.new }
    ensures onward { Onward cursor.old cursor.new }
{
    let mut last: Option<&'a [u8]> = None;
    for _ in 0..count {
        let found = next_key(registry, key, last, depth, cursor)?;
        value(registry, content, depth, cursor)?;
        last = Some(found);
    }
    Ok(())
}

/// Skips a key, which must be above `last`, and returns its bytes.
#[cycle(scanning)]
#[inline(always)]
#[tactic(auto, unfolding(bcs_decode_spec::specs::Reading::give, bcs_decode_spec::specs::Reading::key_here))]
fn next_key<'a>(
    registry: &Registry,
    key: &Format,
    last: Option<&'a [u8]>,
    depth: u32,
    cursor: &mut Cursor<'a>,
) -> Result<&'a [u8], Stop>
    requires room { cursor.old.place + length cursor.old.rest.now < 2 ^ 64 }
    ensures passes { Passes (λ x. (tt, x.now)) result (key_here (skip registry.now depth (shape_of key.now)) (key_bytes last.entry)) cursor.old cursor.new }
    ensures onward { Onward cursor.old cursor.new }
{
    let start = cursor.place;
    let from = cursor.rest;
    value(registry, key, depth, cursor)?;
    let (found, _) = from.split_at((cursor.place - start) as usize);
    follows(last, found, start)?;
    Ok(found)
}

/// Skips a tuple: one value of each format.
#[cycle(scanning)]
#[inline(never)]
pub fn tuple<'a>(
    registry: &Registry,
    formats: &[Format],
    depth: u32,
    cursor: &mut Cursor<'a>,
) -> Result<(), Stop>
    requires room { cursor.old.place + length cursor.old.rest.now < 2 ^ 64 }
    ensures passes { Passes (λ x. x) result (skip registry.now depth (tuple_shape (formats_shapes formats.now))) cursor.old cursor.new }
    ensures onward { Onward cursor.old cursor.new }
{
    node(cursor)?;
    for format in formats {
        value(registry, format, depth, cursor)?;
    }
    Ok(())
}

/// Skips a struct: one value for each field.
#[cycle(scanning)]
#[inline(never)]
pub fn structure<'a>(
    registry: &Registry,
    fields: &[Named<Format>],
    depth: u32,
    cursor: &mut Cursor<'a>,
) -> Result<(), Stop>
    requires room { cursor.old.place + length cursor.old.rest.now < 2 ^ 64 }
    ensures passes { Passes (λ x. x) result (skip registry.now depth (tuple_shape (field_shapes (map field_of fields.now)))) cursor.old cursor.new }
    ensures onward { Onward cursor.old cursor.new }
{
    node(cursor)?;
    for field in fields {
        value(registry, &field.value, depth, cursor)?;
    }
    Ok(())
}

/// Skips a value of the container `name`. Fails with `TooDeep` if `depth` is 0.
#[cycle(scanning)]
#[inline(never)]
fn named<'a>(
    registry: &Registry,
    name: &str,
    depth: u32,
    cursor: &mut Cursor<'a>,
) -> Result<(), Stop>
    requires room { cursor.old.place + length cursor.old.rest.now < 2 ^ 64 }
    ensures passes { Passes (λ x. x) result (skip registry.now depth (name_shape name.now)) cursor.old cursor.new }
    ensures onward { Onward cursor.old cursor.new }
{
    enter(cursor, depth)?;
    let Some(container) = registry.container(name) else {
        return Err(Stop {
            reason: Reason::Unsupported,
            place: cursor.place,
        });
    };
    content(registry, container, depth - 1, cursor)
}

/// Skips `count` values of one container of the registry.
#[cycle(scanning)]
#[inline(never)]
fn containers<'a>(
    registry: &Registry,
    container: &Container,
    count: u64,
    depth: u32,
    cursor: &mut Cursor<'a>,
) -> Result<(), Stop>
    requires room { cursor.old.place + length cursor.old.rest.now < 2 ^ 64 }
    requires found { (name : List ℕ) × (content_at name registry.now ≡ spec.content (container_of container.now)) }
    requires well_formed { IsWellFormed registry.now }
    ensures passes { (name : List ℕ) → content_at name registry.now ≡ spec.content (container_of container.now)
        → Passes (λ x. x) result (items_here skipping (skip registry.now depth (name_shape name)) count) cursor.old cursor.new }
    ensures onward { Onward cursor.old cursor.new }
{
    for _ in 0..count {
        enter(cursor, depth)?;
        content(registry, container, depth - 1, cursor)?;
    }
    Ok(())
}

/// Skips the contents of a container of the registry.
#[cycle(scanning)]
#[inline(always)]
fn content<'a>(
    registry: &Registry,
    container: &Container,
    depth: u32,
    cursor: &mut Cursor<'a>,
) -> Result<(), Stop>
    requires room { cursor.old.place + length cursor.old.rest.now < 2 ^ 64 }
    requires found { (name : List ℕ) × (content_at name registry.now ≡ spec.content (container_of container.now)) }
    requires well_formed { IsWellFormed registry.now }
    ensures passes { Passes (λ x. x) result (content_here skipping (named_here skipping registry.now depth) (spec.content (container_of container.now))) cursor.old cursor.new }
    ensures onward { Onward cursor.old cursor.new }
{
    let layout = opened(container, cursor)?;
    laid(registry, layout, depth, cursor)
}

/// Skips the contents of a struct or a variant.
#[cycle(scanning)]
#[inline(always)]
fn laid<'a>(
    registry: &Registry,
    layout: Layout<'_>,
    depth: u32,
    cursor: &mut Cursor<'a>,
) -> Result<(), Stop>
    requires room { cursor.old.place + length cursor.old.rest.now < 2 ^ 64 }
    ensures passes { Passes (λ x. x) result (skip registry.now depth (layout_shape layout.entry)) cursor.old cursor.new }
    ensures onward { Onward cursor.old cursor.new }
{
    match layout {
        Layout::Unit => node(cursor),
        Layout::NewType(format) => value(registry, format, depth, cursor),
        Layout::Tuple(formats) => tuple(registry, formats, depth, cursor),
        Layout::Struct(fields) => structure(registry, fields, depth, cursor),
    }
}

/// Skips the contents of a variant.
#[inline(never)]
pub fn payload<'a>(
    registry: &Registry,
    payload: &VariantFormat,
    depth: u32,
    cursor: &mut Cursor<'a>,
) -> Result<(), Stop>
    requires room { cursor.old.place + length cursor.old.rest.now < 2 ^ 64 }
    ensures passes { Passes (λ x. x) result (skip registry.now depth (payload_shape (payload_of payload.now))) cursor.old cursor.new }
    ensures onward { Onward cursor.old cursor.new }
{
    laid(registry, payload.layout(), depth, cursor)
}
