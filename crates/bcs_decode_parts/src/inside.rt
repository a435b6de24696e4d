//! What a value contains.
ghost use Rattle.bcs_registry_model.specs.Container.{of};
ghost use Rattle.bcs_registry_model.specs.View.{shape_of};
ghost use Rattle.bcs_decode_parts.specs.Here.{content_of};
ghost use Rattle.bcs_decode_parts.specs.Inside.{Opens};

use crate::here::Here;
use bcs_registry::{Format, Named, VariantFormat};
use bcs_registry_model::Kind;
use std::collections::BTreeMap;

/// The parts of a value that steps can lead to.
#[derive(Clone, Copy)]
pub enum Inside<'r> {
    Nothing,
    Option(&'r Format),
    Container(&'r str),
    Variants(&'r BTreeMap<u32, Named<VariantFormat>>),
    List(&'r Format),
    Array(&'r Format, u64),
    Tuple(&'r [Format]),
    Fields(&'r [Named<Format>]),
    Map(&'r Format, &'r Format),
}

/// What a value of the format contains.
fn inside_format(format: &Format) -> Inside<'_>
    ensures { Opens (of (shape_of format.now)) result }
{
    match format.kind() {
        Kind::Scalar(_) => Inside::Nothing,
        Kind::TypeName(name) => Inside::Container(name),
        Kind::Opt(content) => Inside::Option(content),
        Kind::Seq(element) => Inside::List(element),
        Kind::Map(key, content) => Inside::Map(key, content),
        Kind::Tuple(formats) => Inside::Tuple(formats),
        Kind::TupleArray(element, size) => Inside::Array(element, size),
    }
}

/// What the value or the contents at `here` contain.
pub fn inside_of<'r>(here: &Here<'r>) -> Inside<'r>
    ensures { Opens (content_of here.now) result }
{
    match *here {
        Here::Unit => Inside::Nothing,
        Here::Value(format) => inside_format(format),
        Here::Tuple(formats) => Inside::Tuple(formats),
        Here::Fields(fields) => Inside::Fields(fields),
        Here::Variants(variants) => Inside::Variants(variants),
    }
}
