//! Reads lists, arrays and tuples from a source.
ghost use Rattle.std.specs.Prelude.{◌≡◌, [], length, vec_capacity};
ghost use Rattle.bcs_registry_model.specs.Container.{content};
ghost use Rattle.bcs_registry_model.specs.View.{container_of, shape_of, formats_shapes};
ghost use Rattle.bcs_value_model.specs.View.{tree_of, items_trees};
ghost use Rattle.bcs_decode_spec.specs.Reading.{building};
ghost use Rattle.bcs_decode_source.specs.Sees.{read, container_value, row_leaf, items_node, each, tuple_value};
ghost use Rattle.bcs_decode_source.specs.Reads.{Ready, Reads, room_for};
ghost use Rattle.bcs_decode_source.specs.Known.{IsKnown};

use crate::bytes::begin;
use crate::containers::container;
use crate::number::row_count;
use crate::number_rows::push_numbers;
use crate::reader::Reader;
use crate::room::make_room;
use crate::slots::finish;
use crate::values::value;
use bcs_decode_spec::DecodeFault;
use bcs_io::ByteSource;
use bcs_registry::{Container, Format};
use bcs_registry_model::IntegerKind;
use bcs_value::Value;
use bcs_value_model::slot::keep;

/// Reads a list, or an array of `size` elements.
#[inline(never)]
#[cycle(streaming)]
#[tactic(auto, unfolding(bcs_decode_spec::specs::Reading::chain, bcs_decode_spec::specs::Reading::give, crate::specs::Sees::items_node))]
pub fn items<S: ByteSource>(
    reader: &mut Reader<'_, S>,
    element: &Format,
    size: Option<u64>,
    depth: u32,
    slot: &mut Value,
) -> Result<(), DecodeFault>
    requires ready { Ready S.is_failed S.allowance reader.old }
    ensures reads { Reads S.content S.is_failed S.allowance (λ _. tree_of slot.new) result reader.old (items_node building (read reader.old.registry.now depth (shape_of element.now)) size) reader.new }
{
    let count = row_count(reader, size)?;
    let mut found = Vec::new(reader.alloc);
    make_room(reader, &mut found, count)?;
    let read = row(reader, element, count, depth, slot, &mut found);
    finish(read, found, slot)
}

/// Reads `count` values: integers in one loop, and others one by one, with one lookup of their container.
#[cycle(streaming)]
fn row<S: ByteSource>(
    reader: &mut Reader<'_, S>,
    element: &Format,
    count: u64,
    depth: u32,
    slot: &mut Value,
    found: &mut Vec<Value>,
) -> Result<(), DecodeFault>
    requires ready { Ready S.is_failed S.allowance reader.old }
    requires empty { found.old.items ≡ [] }
    requires reserved { vec_capacity found.old ≡ room_for reader.old count }
    ensures reads { Reads S.content S.is_failed S.allowance (λ _. items_trees found.new.items) result reader.old (row_leaf (read reader.old.registry.now depth (shape_of element.now)) count) reader.new }
{
    if let Some(format) = IntegerKind::of(element) {
        return push_numbers(reader, format, count, found);
    }
    if count == 0 {
        return Ok(());
    }
    if let Some(container) = reader.registry.named_container(element) {
        return containers(reader, container, count, depth, slot, found);
    }
    for _ in 0..count {
        value(reader, element, depth, slot)?;
        keep(found, slot)?;
    }
    Ok(())
}

/// Reads `count` values of one container of the registry.
#[inline(never)]
#[cycle(streaming)]
fn containers<S: ByteSource>(
    reader: &mut Reader<'_, S>,
    element: &Container,
    count: u64,
    depth: u32,
    slot: &mut Value,
    found: &mut Vec<Value>,
) -> Result<(), DecodeFault>
    requires ready { Ready S.is_failed S.allowance reader.old }
    requires known { IsKnown reader.old.registry.now (content (container_of element.now)) }
    requires empty { found.old.items ≡ [] }
    requires reserved { vec_capacity found.old ≡ room_for reader.old count }
    ensures reads { Reads S.content S.is_failed S.allowance (λ _. items_trees found.new.items) result reader.old (row_leaf (container_value reader.old.registry.now depth (content (container_of element.now))) count) reader.new }
{
    for _ in 0..count {
        container(reader, element, depth, slot)?;
        keep(found, slot)?;
    }
    Ok(())
}

/// Reads a tuple.
#[inline(never)]
#[cycle(streaming)]
#[tactic(auto, unfolding(bcs_decode_spec::specs::Reading::chain, bcs_decode_spec::specs::Reading::give, crate::specs::Sees::tuple_value))]
pub fn tuple<S: ByteSource>(
    reader: &mut Reader<'_, S>,
    formats: &[Format],
    depth: u32,
    slot: &mut Value,
) -> Result<(), DecodeFault>
    requires ready { Ready S.is_failed S.allowance reader.old }
    ensures reads { Reads S.content S.is_failed S.allowance (λ _. tree_of slot.new) result reader.old (tuple_value reader.old.registry.now depth (formats_shapes formats.now)) reader.new }
{
    begin(reader)?;
    let mut found = Vec::new(reader.alloc);
    make_room(reader, &mut found, formats.len() as u64)?;
    let read = parts(reader, formats, depth, slot, &mut found);
    finish(read, found, slot)
}

/// Reads one value of each format.
#[cycle(streaming)]
fn parts<S: ByteSource>(
    reader: &mut Reader<'_, S>,
    formats: &[Format],
    depth: u32,
    slot: &mut Value,
    found: &mut Vec<Value>,
) -> Result<(), DecodeFault>
    requires ready { Ready S.is_failed S.allowance reader.old }
    requires empty { found.old.items ≡ [] }
    requires reserved { vec_capacity found.old ≡ room_for reader.old (length formats.now) }
    ensures reads { Reads S.content S.is_failed S.allowance (λ _. items_trees found.new.items) result reader.old (each reader.old.registry.now depth (formats_shapes formats.now)) reader.new }
{
    for format in formats {
        value(reader, format, depth, slot)?;
        keep(found, slot)?;
    }
    Ok(())
}
