//! Takes one step. `None` if the step leads nowhere. If no valid value is ahead, the result isn't specified.
ghost use Rattle.std.specs.Prelude.{List, ℕ, map};
ghost use Rattle.bcs_registry_model.specs.Container.{Entries, field_shapes, of, one_of};
ghost use Rattle.bcs_registry_model.specs.Shape.{array as array_shape, map as map_shape, name as name_shape, option as option_shape, seq as seq_shape, tuple as tuple_shape};
ghost use Rattle.bcs_registry_model.specs.View.{shape_of, formats_shapes, field_of, choice_of};
ghost use Rattle.bcs_decode_parts.specs.Parts.{inner, item, key as key_step};
ghost use Rattle.bcs_decode_parts.specs.Fronts.{StepsTo};
ghost use Rattle.bcs_decode_parts.specs.Here.{content_of};
ghost use Rattle.bcs_decode_parts.specs.Steps.{step_of};

use crate::ahead::{Ahead, bytes_before};
use crate::here::{Here, Reached, container_inside, payload_inside};
use crate::inside::{Inside, inside_of};
use crate::passing::{after_fields, after_formats, after_items, after_value};
use crate::step::Step;
use crate::variants::{after_number, chosen};
use bcs_registry::{Format, Named, Registry, VariantFormat};
use std::collections::BTreeMap;

/// To element `index` of a list.
fn list_item<'r, 'a>(
    registry: &Registry,
    element: &'r Format,
    index: u64,
    ahead: &Ahead<'a>,
) -> Option<Reached<'r, 'a>>
    ensures { StepsTo registry.now ahead.now (item index) (of (seq_shape (shape_of element.now))) result }
{
    let (count, rest) = after_number(ahead.bytes)?;
    if index >= u64::from(count) {
        return None;
    }
    let rest = after_items(registry, element, index, &ahead.at(rest))?;
    Some(Reached {
        here: Here::Value(element),
        ahead: ahead.at(rest),
    })
}

/// To element `index` of an array with `size` elements.
fn array_item<'r, 'a>(
    registry: &Registry,
    element: &'r Format,
    size: u64,
    index: u64,
    ahead: &Ahead<'a>,
) -> Option<Reached<'r, 'a>>
    ensures { StepsTo registry.now ahead.now (item index) (of (array_shape (shape_of element.now) size)) result }
{
    if index >= size {
        return None;
    }
    let rest = after_items(registry, element, index, ahead)?;
    Some(Reached {
        here: Here::Value(element),
        ahead: ahead.at(rest),
    })
}

/// To element `index` of a tuple.
fn tuple_item<'r, 'a>(
    registry: &Registry,
    formats: &'r [Format],
    index: u64,
    ahead: &Ahead<'a>,
) -> Option<Reached<'r, 'a>>
    ensures { StepsTo registry.now ahead.now (item index) (of (tuple_shape (formats_shapes formats.now))) result }
{
    let format = formats.get(index as usize)?;
    let (front, _) = formats.split_at(index as usize);
    let rest = after_formats(registry, front, ahead)?;
    Some(Reached {
        here: Here::Value(format),
        ahead: ahead.at(rest),
    })
}

/// To field `index` of a struct.
fn field_item<'r, 'a>(
    registry: &Registry,
    fields: &'r [Named<Format>],
    index: u64,
    ahead: &Ahead<'a>,
) -> Option<Reached<'r, 'a>>
    ensures { StepsTo registry.now ahead.now (item index) (of (tuple_shape (field_shapes (map field_of fields.now)))) result }
{
    let field = fields.get(index as usize)?;
    let (front, _) = fields.split_at(index as usize);
    let rest = after_fields(registry, front, ahead)?;
    Some(Reached {
        here: Here::Value(&field.value),
        ahead: ahead.at(rest),
    })
}

/// Into an option.
fn in_option<'r, 'a>(content: &'r Format, ahead: &Ahead<'a>) -> Option<Reached<'r, 'a>>
    ensures { (registry : Entries) → StepsTo registry ahead.now inner (of (option_shape (shape_of content.now))) result }
{
    let (first, rest) = ahead.bytes.split_first()?;
    if *first != 1 {
        return None;
    }
    Some(Reached {
        here: Here::Value(content),
        ahead: ahead.at(rest),
    })
}

/// Into the container `name`.
fn in_container<'r, 'a>(
    registry: &'r Registry,
    name: &str,
    ahead: &Ahead<'a>,
) -> Option<Reached<'r, 'a>>
    ensures { StepsTo registry.now ahead.now inner (of (name_shape name.now)) result }
{
    if ahead.depth == 0 {
        return None;
    }
    let container = registry.container(name)?;
    Some(Reached {
        here: container_inside(container),
        ahead: Ahead {
            bytes: ahead.bytes,
            depth: ahead.depth - 1,
            nodes: ahead.nodes,
        },
    })
}

/// Into a variant.
fn in_variant<'r, 'a>(
    variants: &'r BTreeMap<u32, Named<VariantFormat>>,
    ahead: &Ahead<'a>,
) -> Option<Reached<'r, 'a>>
    ensures { (registry : Entries) → StepsTo registry ahead.now inner (one_of (map choice_of variants.now.entries)) result }
{
    let (held, rest) = chosen(variants, ahead.bytes)?;
    Some(Reached {
        here: payload_inside(held),
        ahead: ahead.at(rest),
    })
}

/// To the value of a map whose encoded key is `wanted`.
fn map_value<'r, 'a>(
    registry: &Registry,
    key: &Format,
    content: &'r Format,
    wanted: &[u8],
    ahead: &Ahead<'a>,
) -> Option<Reached<'r, 'a>>
    ensures { StepsTo registry.now ahead.now (key_step wanted.now) (of (map_shape (shape_of key.now) (shape_of content.now))) result }
{
    let (count, mut rest) = after_number(ahead.bytes)?;
    for _ in 0..count {
        let behind = after_value(registry, key, &ahead.at(rest))?;
        if bytes_before(rest, behind) == wanted {
            return Some(Reached {
                here: Here::Value(content),
                ahead: ahead.at(behind),
            });
        }
        rest = after_value(registry, content, &ahead.at(behind))?;
    }
    None
}

/// To element `index`.
fn to_item<'r, 'a>(registry: &Registry, at: &Reached<'r, 'a>, index: u64) -> Option<Reached<'r, 'a>>
    ensures { StepsTo registry.now at.now.ahead (item index) (content_of at.now.here) result }
{
    match inside_of(&at.here) {
        Inside::List(element) => list_item(registry, element, index, &at.ahead),
        Inside::Array(element, size) => array_item(registry, element, size, index, &at.ahead),
        Inside::Tuple(formats) => tuple_item(registry, formats, index, &at.ahead),
        Inside::Fields(fields) => field_item(registry, fields, index, &at.ahead),
        Inside::Nothing
        | Inside::Option(_)
        | Inside::Container(_)
        | Inside::Variants(_)
        | Inside::Map(_, _) => None,
    }
}

/// Into an option, a variant or a container.
fn to_inner<'r, 'a>(registry: &'r Registry, at: &Reached<'r, 'a>) -> Option<Reached<'r, 'a>>
    ensures { StepsTo registry.now at.now.ahead inner (content_of at.now.here) result }
{
    match inside_of(&at.here) {
        Inside::Option(content) => in_option(content, &at.ahead),
        Inside::Container(name) => in_container(registry, name, &at.ahead),
        Inside::Variants(variants) => in_variant(variants, &at.ahead),
        Inside::Nothing
        | Inside::List(_)
        | Inside::Array(_, _)
        | Inside::Tuple(_)
        | Inside::Fields(_)
        | Inside::Map(_, _) => None,
    }
}

/// To the value whose encoded key is `wanted`.
fn to_value<'r, 'a>(
    registry: &Registry,
    at: &Reached<'r, 'a>,
    wanted: &[u8],
) -> Option<Reached<'r, 'a>>
    ensures { StepsTo registry.now at.now.ahead (key_step wanted.now) (content_of at.now.here) result }
{
    match inside_of(&at.here) {
        Inside::Map(key, content) => map_value(registry, key, content, wanted, &at.ahead),
        Inside::Nothing
        | Inside::Option(_)
        | Inside::Container(_)
        | Inside::Variants(_)
        | Inside::List(_)
        | Inside::Array(_, _)
        | Inside::Tuple(_)
        | Inside::Fields(_) => None,
    }
}

/// Takes one step.
pub fn take_step<'r, 'a>(
    registry: &'r Registry,
    at: &Reached<'r, 'a>,
    step: &Step,
) -> Option<Reached<'r, 'a>>
    ensures { StepsTo registry.now at.now.ahead (step_of step.now) (content_of at.now.here) result }
{
    match step {
        Step::Item(index) => to_item(registry, at, *index),
        Step::Inner => to_inner(registry, at),
        Step::Key(wanted) => to_value(registry, at, wanted),
    }
}
