//! Reads containers from a source.
ghost use Rattle.std.specs.Prelude.{◌≡◌, [], length, map, vec_capacity};
ghost use Rattle.bcs_registry_model.specs.Container as spec;
ghost use Rattle.bcs_registry_model.specs.Container.{field_shapes, payload_shape};
ghost use Rattle.bcs_registry_model.specs.View.{container_of, field_of, payload_of};
ghost use Rattle.bcs_value_model.specs.View.{tree_of, items_trees};
ghost use Rattle.bcs_decode_source.specs.Sees.{read, each, tuple_value, container_value, content_value, named_value};
ghost use Rattle.bcs_decode_source.specs.Reads.{Ready, Reads, room_for};
ghost use Rattle.bcs_decode_source.specs.Known.{IsKnown};

use crate::bytes::begin;
use crate::leaves::put_unit;
use crate::names::{enter, variant_number};
use crate::reader::Reader;
use crate::room::make_room;
use crate::rows::tuple;
use crate::slots::finish;
use crate::values::value;
use bcs_decode_spec::{DecodeFault, Reason, Stop};
use bcs_io::ByteSource;
use bcs_registry::{Container, Format, Named, VariantFormat};
use bcs_value::Value;
use bcs_value_model::slot::{keep, wrap_named, wrap_variant};

/// Reads a value of the container `name`.
#[inline(never)]
#[cycle(streaming)]
pub fn named<S: ByteSource>(
    reader: &mut Reader<'_, S>,
    name: &str,
    depth: u32,
    slot: &mut Value,
) -> Result<(), DecodeFault>
    requires ready { Ready S.is_failed S.allowance reader.old }
    ensures reads { Reads S.content S.is_failed S.allowance (λ _. tree_of slot.new) result reader.old (named_value reader.old.registry.now depth name.now) reader.new }
{
    let registry = reader.registry;
    let Some(found) = registry.container(name) else {
        enter(reader, depth)?;
        return Err(DecodeFault::Stop(Stop {
            reason: Reason::Unsupported,
            place: reader.at.place,
        }));
    };
    container(reader, found, depth, slot)
}

/// Reads a value of a container of the registry.
#[inline(always)]
#[cycle(streaming)]
#[tactic(auto, unfolding(bcs_decode_spec::specs::Reading::chain, bcs_decode_spec::specs::Reading::give, crate::specs::Sees::container_value))]
pub fn container<S: ByteSource>(
    reader: &mut Reader<'_, S>,
    found: &Container,
    depth: u32,
    slot: &mut Value,
) -> Result<(), DecodeFault>
    requires ready { Ready S.is_failed S.allowance reader.old }
    requires known { IsKnown reader.old.registry.now (spec.content (container_of found.now)) }
    ensures reads { Reads S.content S.is_failed S.allowance (λ _. tree_of slot.new) result reader.old (container_value reader.old.registry.now depth (spec.content (container_of found.now))) reader.new }
{
    enter(reader, depth)?;
    content(reader, found, depth - 1, slot)?;
    wrap_named(reader.alloc, slot)?;
    Ok(())
}

/// Reads the contents of a container of the registry.
#[inline(never)]
#[cycle(streaming)]
fn content<S: ByteSource>(
    reader: &mut Reader<'_, S>,
    found: &Container,
    depth: u32,
    slot: &mut Value,
) -> Result<(), DecodeFault>
    requires ready { Ready S.is_failed S.allowance reader.old }
    requires known { IsKnown reader.old.registry.now (spec.content (container_of found.now)) }
    ensures reads { Reads S.content S.is_failed S.allowance (λ _. tree_of slot.new) result reader.old (content_value reader.old.registry.now depth (spec.content (container_of found.now))) reader.new }
{
    match found {
        Container::UnitStruct => put_unit(reader, slot),
        Container::NewTypeStruct(format) => { value(reader, format, depth, slot) }
        Container::TupleStruct(formats) => { tuple(reader, formats, depth, slot) }
        Container::Struct(fields) => { structure(reader, fields, depth, slot) }
        Container::Enum(variants) => {
            let start = reader.at.place;
            let number = variant_number(reader)?;
            let Some(variant) = variants.get(&number) else {
                return Err(DecodeFault::Stop(Stop {
                    reason: Reason::UnknownVariant,
                    place: start,
                }));
            };
            payload(reader, &variant.value, depth, slot)?;
            wrap_variant(reader.alloc, number, slot)?;
            Ok(())
        }
    }
}

/// Reads the contents of a variant.
#[inline(never)]
#[cycle(streaming)]
pub fn payload<S: ByteSource>(
    reader: &mut Reader<'_, S>,
    payload: &VariantFormat,
    depth: u32,
    slot: &mut Value,
) -> Result<(), DecodeFault>
    requires ready { Ready S.is_failed S.allowance reader.old }
    ensures reads { Reads S.content S.is_failed S.allowance (λ _. tree_of slot.new) result reader.old (read reader.old.registry.now depth (payload_shape (payload_of payload.now))) reader.new }
{
    match payload {
        VariantFormat::Unit => put_unit(reader, slot),
        VariantFormat::NewType(format) => value(reader, format, depth, slot),
        VariantFormat::Tuple(formats) => tuple(reader, formats, depth, slot),
        VariantFormat::Struct(fields) => { structure(reader, fields, depth, slot) }
    }
}

/// Reads the fields of a struct.
#[inline(never)]
#[cycle(streaming)]
#[tactic(auto, unfolding(bcs_decode_spec::specs::Reading::chain, bcs_decode_spec::specs::Reading::give, crate::specs::Sees::tuple_value))]
pub fn structure<S: ByteSource>(
    reader: &mut Reader<'_, S>,
    fields: &[Named<Format>],
    depth: u32,
    slot: &mut Value,
) -> Result<(), DecodeFault>
    requires ready { Ready S.is_failed S.allowance reader.old }
    ensures reads { Reads S.content S.is_failed S.allowance (λ _. tree_of slot.new) result reader.old (tuple_value reader.old.registry.now depth (field_shapes (map field_of fields.now))) reader.new }
{
    begin(reader)?;
    let mut found = Vec::new(reader.alloc);
    make_room(reader, &mut found, fields.len() as u64)?;
    let read = each_field(reader, fields, depth, slot, &mut found);
    finish(read, found, slot)
}

/// Appends one value for each field.
#[cycle(streaming)]
fn each_field<S: ByteSource>(
    reader: &mut Reader<'_, S>,
    fields: &[Named<Format>],
    depth: u32,
    slot: &mut Value,
    found: &mut Vec<Value>,
) -> Result<(), DecodeFault>
    requires ready { Ready S.is_failed S.allowance reader.old }
    requires empty { found.old.items ≡ [] }
    requires reserved { vec_capacity found.old ≡ room_for reader.old (length fields.now) }
    ensures reads { Reads S.content S.is_failed S.allowance (λ _. items_trees found.new.items) result reader.old (each reader.old.registry.now depth (field_shapes (map field_of fields.now))) reader.new }
{
    for field in fields {
        value(reader, &field.value, depth, slot)?;
        keep(found, slot)?;
    }
    Ok(())
}
