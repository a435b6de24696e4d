//! Reports values of containers and variants.
ghost use Rattle.std.specs.Prelude.{◌≡◌, ℕ, ◌+◌, ◌<◌, ◌^◌, List, length, map};
ghost use Rattle.bcs_registry_model.specs.Container as spec;
ghost use Rattle.bcs_registry_model.specs.Container.{content_at, field_shapes, payload_shape};
ghost use Rattle.bcs_registry_model.specs.Shape.{name as name_shape, tuple as tuple_shape};
ghost use Rattle.bcs_registry_model.specs.View.{field_of, payload_of, container_of};
ghost use Rattle.bcs_registry_model.specs.WellFormed.{IsWellFormed};
ghost use Rattle.bcs_decode_spec.specs.Reading.{content_here, named_here, skipping};
ghost use Rattle.bcs_decode_spec.specs.Steps.{skip};
ghost use Rattle.bcs_decode_slice.specs.Passing.{Passes, Onward};
ghost use Rattle.bcs_explain.specs.Covering.{Covers};

use crate::checks::{enter, node, unknown_name, unknown_variant, variant_number, variant_numbered};
use crate::listener::{Listener, Meaning};
use crate::reporting::report_piece;
use crate::sequences::tuple;
use crate::trail::{Step, Trail, below, to_field};
use crate::walking::value;
use bcs_decode_slice::cursor::Cursor;
use bcs_decode_spec::Stop;
use bcs_registry::{Container, Format, Named, Registry, VariantFormat};

/// Reports a value of the container `name`. At most `depth` more containers may be opened, including this one.
#[inline(never)]
#[cycle(walking)]
pub(crate) fn named<'r, 'a, T: Listener>(
    registry: &'r Registry,
    name: &'r str,
    depth: u32,
    cursor: &mut Cursor<'a>,
    trail: &Trail<'_, 'r, 'a>,
    out: &mut T,
) -> Result<(), Stop>
    requires room { cursor.old.place + length cursor.old.rest.now < 2 ^ 64 }
    ensures passes { Passes (λ x. x) result (skip registry.now depth (name_shape name.now)) cursor.old cursor.new }
    ensures onward { Onward cursor.old cursor.new }
    ensures covers { Covers T.heard result cursor.old out.old cursor.new out.new }
{
    enter(cursor, depth, name, trail, out)?;
    let at = below(&*trail, Step::Container(name));
    let Some(container) = registry.container(name) else {
        return Err(unknown_name(cursor, &at, out));
    };
    content(registry, container, depth - 1, cursor, &at, out)
}

/// Reports the contents of a container of the registry.
#[inline(always)]
#[cycle(walking)]
fn content<'r, 'a, T: Listener>(
    registry: &'r Registry,
    container: &'r Container,
    depth: u32,
    cursor: &mut Cursor<'a>,
    trail: &Trail<'_, 'r, 'a>,
    out: &mut T,
) -> Result<(), Stop>
    requires room { cursor.old.place + length cursor.old.rest.now < 2 ^ 64 }
    requires found { (name : List ℕ) × (content_at name registry.now ≡ spec.content (container_of container.now)) }
    requires well_formed { IsWellFormed registry.now }
    ensures passes { Passes (λ x. x) result (content_here skipping (named_here skipping registry.now depth) (spec.content (container_of container.now))) cursor.old cursor.new }
    ensures onward { Onward cursor.old cursor.new }
    ensures covers { Covers T.heard result cursor.old out.old cursor.new out.new }
{
    match container {
        Container::UnitStruct => node(cursor, trail, out),
        Container::NewTypeStruct(format) => value(registry, format, depth, cursor, trail, out),
        Container::TupleStruct(formats) => tuple(registry, formats, depth, cursor, trail, out),
        Container::Struct(fields) => structure(registry, fields, depth, cursor, trail, out),
        Container::Enum(variants) => {
            let (place, from) = (cursor.place, cursor.rest);
            let (start, number) = variant_number(cursor, trail, out)?;
            match variant_numbered(variants, number) {
                Some(variant) => {
                    let name = variant.name.as_str();
                    report_piece(
                        place,
                        from,
                        cursor,
                        trail,
                        Meaning::Variant(number, name),
                        out,
                    );
                    payload(
                        registry,
                        &variant.value,
                        depth,
                        cursor,
                        &below(&*trail, Step::Variant(number, name)),
                        out,
                    )
                }
                None => Err(unknown_variant(start, trail, out)),
            }
        }
    }
}

/// Reports the contents of a variant.
#[inline(never)]
#[cycle(walking)]
fn payload<'r, 'a, T: Listener>(
    registry: &'r Registry,
    payload: &'r VariantFormat,
    depth: u32,
    cursor: &mut Cursor<'a>,
    trail: &Trail<'_, 'r, 'a>,
    out: &mut T,
) -> Result<(), Stop>
    requires room { cursor.old.place + length cursor.old.rest.now < 2 ^ 64 }
    ensures passes { Passes (λ x. x) result (skip registry.now depth (payload_shape (payload_of payload.now))) cursor.old cursor.new }
    ensures onward { Onward cursor.old cursor.new }
    ensures covers { Covers T.heard result cursor.old out.old cursor.new out.new }
{
    match payload {
        VariantFormat::Unit => node(cursor, trail, out),
        VariantFormat::NewType(format) => value(registry, format, depth, cursor, trail, out),
        VariantFormat::Tuple(formats) => tuple(registry, formats, depth, cursor, trail, out),
        VariantFormat::Struct(fields) => structure(registry, fields, depth, cursor, trail, out),
    }
}

/// Reports one value for each field.
#[inline(never)]
#[cycle(walking)]
fn structure<'r, 'a, T: Listener>(
    registry: &'r Registry,
    fields: &'r [Named<Format>],
    depth: u32,
    cursor: &mut Cursor<'a>,
    trail: &Trail<'_, 'r, 'a>,
    out: &mut T,
) -> Result<(), Stop>
    requires room { cursor.old.place + length cursor.old.rest.now < 2 ^ 64 }
    ensures passes { Passes (λ x. x) result (skip registry.now depth (tuple_shape (field_shapes (map field_of fields.now)))) cursor.old cursor.new }
    ensures onward { Onward cursor.old cursor.new }
    ensures covers { Covers T.heard result cursor.old out.old cursor.new out.new }
{
    node(cursor, trail, out)?;
    for (i, field) in fields.iter().enumerate() {
        let at = below(&*trail, to_field(i, field));
        value(registry, &field.value, depth, cursor, &at, out)?;
    }
    Ok(())
}
