//! What a position in an encoding contains.
ghost use Rattle.std.specs.Prelude.{◌≡◌};
ghost use Rattle.bcs_registry_model.specs.Container.{content, of, payload_shape};
ghost use Rattle.bcs_registry_model.specs.View.{container_of, payload_of};
ghost use Rattle.bcs_decode_parts.specs.Here.{content_of};

use crate::ahead::Ahead;
use bcs_registry::{Container, Format, Named, VariantFormat};
use std::collections::BTreeMap;

/// A value of a format, or the contents of a container or of a variant.
#[derive(Clone, Copy)]
pub enum Here<'r> {
    Unit,
    Value(&'r Format),
    Tuple(&'r [Format]),
    Fields(&'r [Named<Format>]),
    Variants(&'r BTreeMap<u32, Named<VariantFormat>>),
}

/// Where steps have led so far.
#[derive(Clone, Copy)]
pub struct Reached<'r, 'a> {
    pub here: Here<'r>,
    pub ahead: Ahead<'a>,
}

/// The contents of a container.
pub fn container_inside(container: &Container) -> Here<'_>
    ensures { content_of result ≡ content (container_of container.now) }
{
    match container {
        Container::UnitStruct => Here::Unit,
        Container::NewTypeStruct(format) => Here::Value(format),
        Container::TupleStruct(formats) => Here::Tuple(formats),
        Container::Struct(fields) => Here::Fields(fields),
        Container::Enum(variants) => Here::Variants(variants),
    }
}

/// The contents of a variant.
pub fn payload_inside(payload: &VariantFormat) -> Here<'_>
    ensures { content_of result ≡ of (payload_shape (payload_of payload.now)) }
{
    match payload {
        VariantFormat::Unit => Here::Unit,
        VariantFormat::NewType(format) => Here::Value(format),
        VariantFormat::Tuple(formats) => Here::Tuple(formats),
        VariantFormat::Struct(fields) => Here::Fields(fields),
    }
}
