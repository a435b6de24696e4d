//! Skips containers in a source.
ghost use Rattle.std.specs.Prelude.{◌≡◌, true, map};
ghost use Rattle.bcs_registry_model.specs.Container as spec;
ghost use Rattle.bcs_registry_model.specs.Container.{field_shapes, payload_shape};
ghost use Rattle.bcs_registry_model.specs.Shape.{name as name_shape, tuple as tuple_shape};
ghost use Rattle.bcs_registry_model.specs.View.{container_of, field_of, payload_of};
ghost use Rattle.bcs_decode_spec.specs.Reading.{content_here, named_here, skipping};
ghost use Rattle.bcs_decode_spec.specs.Steps.{skip};
ghost use Rattle.bcs_decode_source.specs.Reads.{Ready, Reads};
ghost use Rattle.bcs_decode_source.specs.Sees.{OutOfMemoryOnlyInKey};
ghost use Rattle.bcs_decode_source.specs.Known.{IsKnown};
ghost use Rattle.bcs_decode_source.specs.Reaching.{content_has_no_map, named_reaches_no_map, reaches_no_map};

use crate::bytes::begin;
use crate::names::{enter, variant_number};
use crate::reader::Reader;
use crate::scanning::rows::tuple;
use crate::scanning::values::value;
use bcs_decode_spec::{DecodeFault, Reason, Stop};
use bcs_io::ByteSource;
use bcs_registry::{Container, Format, Named, VariantFormat};

/// Skips a value of the container `name`.
#[inline(never)]
#[cycle(scanning)]
pub fn named<S: ByteSource>(
    reader: &mut Reader<'_, S>,
    name: &str,
    depth: u32,
) -> Result<(), DecodeFault>
    requires ready { Ready S.is_failed S.allowance reader.old }
    ensures reads { Reads S.content S.is_failed S.allowance (λ x. x) result reader.old (skip reader.old.registry.now depth (name_shape name.now)) reader.new }
    ensures memory { reaches_no_map reader.old.registry.now depth (name_shape name.now) ≡ true → OutOfMemoryOnlyInKey result reader.old.at.now }
{
    enter(reader, depth)?;
    let registry = reader.registry;
    let Some(found) = registry.container(name) else {
        return Err(DecodeFault::Stop(Stop {
            reason: Reason::Unsupported,
            place: reader.at.place,
        }));
    };
    content(reader, found, depth - 1)
}

/// Skips the contents of a container of the registry.
#[inline(always)]
#[cycle(scanning)]
fn content<S: ByteSource>(
    reader: &mut Reader<'_, S>,
    found: &Container,
    depth: u32,
) -> Result<(), DecodeFault>
    requires ready { Ready S.is_failed S.allowance reader.old }
    requires known { IsKnown reader.old.registry.now (spec.content (container_of found.now)) }
    ensures reads { Reads S.content S.is_failed S.allowance (λ x. x) result reader.old (content_here skipping (named_here skipping reader.old.registry.now depth) (spec.content (container_of found.now))) reader.new }
    ensures memory { content_has_no_map (named_reaches_no_map reader.old.registry.now depth) (spec.content (container_of found.now)) ≡ true → OutOfMemoryOnlyInKey result reader.old.at.now }
{
    match found {
        Container::UnitStruct => begin(reader),
        Container::NewTypeStruct(format) => value(reader, format, depth),
        Container::TupleStruct(formats) => tuple(reader, formats, depth),
        Container::Struct(fields) => structure(reader, fields, depth),
        Container::Enum(variants) => {
            let start = reader.at.place;
            let number = variant_number(reader)?;
            match variants.get(&number) {
                Some(variant) => payload(reader, &variant.value, depth),
                None => Err(DecodeFault::Stop(Stop {
                    reason: Reason::UnknownVariant,
                    place: start,
                })),
            }
        }
    }
}

/// Skips the contents of a variant.
#[inline(never)]
#[cycle(scanning)]
fn payload<S: ByteSource>(
    reader: &mut Reader<'_, S>,
    payload: &VariantFormat,
    depth: u32,
) -> Result<(), DecodeFault>
    requires ready { Ready S.is_failed S.allowance reader.old }
    ensures reads { Reads S.content S.is_failed S.allowance (λ x. x) result reader.old (skip reader.old.registry.now depth (payload_shape (payload_of payload.now))) reader.new }
    ensures memory { reaches_no_map reader.old.registry.now depth (payload_shape (payload_of payload.now)) ≡ true → OutOfMemoryOnlyInKey result reader.old.at.now }
{
    match payload {
        VariantFormat::Unit => begin(reader),
        VariantFormat::NewType(format) => value(reader, format, depth),
        VariantFormat::Tuple(formats) => tuple(reader, formats, depth),
        VariantFormat::Struct(fields) => structure(reader, fields, depth),
    }
}

/// Skips one value for each field.
#[inline(never)]
#[cycle(scanning)]
fn structure<S: ByteSource>(
    reader: &mut Reader<'_, S>,
    fields: &[Named<Format>],
    depth: u32,
) -> Result<(), DecodeFault>
    requires ready { Ready S.is_failed S.allowance reader.old }
    ensures reads { Reads S.content S.is_failed S.allowance (λ x. x) result reader.old (skip reader.old.registry.now depth (tuple_shape (field_shapes (map field_of fields.now)))) reader.new }
    ensures memory { reaches_no_map reader.old.registry.now depth (tuple_shape (field_shapes (map field_of fields.now))) ≡ true → OutOfMemoryOnlyInKey result reader.old.at.now }
{
    begin(reader)?;
    for field in fields {
        value(reader, &field.value, depth)?;
    }
    Ok(())
}
