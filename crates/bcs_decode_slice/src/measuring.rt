//! Finds formats whose values all have the same encoded size.
ghost use Rattle.std.specs.Prelude.{◌≡◌, ◌<◌, ◌≤◌, IfSome};
ghost use Rattle.bcs_registry_model.specs.Container.{content};
ghost use Rattle.bcs_registry_model.specs.Layout.{row_formats};
ghost use Rattle.bcs_registry_model.specs.Shape.{name as name_shape, tuple as tuple_shape, array as array_shape};
ghost use Rattle.bcs_registry_model.specs.View.{shape_of, formats_shapes, container_of};
ghost use Rattle.bcs_decode_slice.specs.Fixed.{IsFixed, IsFixedInside};

use crate::fixed_size::{FixedSize, NODE, whole_size};
use bcs_registry::{Container, Format, Registry};
use bcs_registry_model::{Content, Kind, Layout, Row};

/// The encoded size that all values of `format` share, with at most `depth` containers open inside them. Returns `None`
/// if sizes differ, if some byte strings of that size are invalid, or if finding out would take more than `looks`
/// formats.
#[cycle(measuring)]
pub fn value_size(
    registry: &Registry,
    format: &Format,
    depth: u32,
    looks: &mut u32,
) -> Option<FixedSize>
    ensures fixed { IfSome result (λ z. IsFixed registry.now depth (shape_of format.now) z.bytes z.nodes × (0 < z.nodes)) }
    ensures looks { looks.new ≤ looks.old }
{
    if *looks == 0 {
        return None;
    }
    *looks -= 1;
    match format.kind() {
        Kind::TypeName(name) => named_size(registry, name, depth, looks),
        Kind::Tuple(formats) => row_size(registry, Row::Formats(formats), depth, looks),
        Kind::TupleArray(element, size) => array_size(registry, element, size, depth, looks),
        Kind::Scalar(_) => whole_size(format),
        Kind::Opt(_) | Kind::Seq(_) | Kind::Map(_, _) => None,
    }
}

/// The size of an array of `size` elements. An empty array has a fixed size whatever its elements are.
#[cycle(measuring)]
fn array_size(
    registry: &Registry,
    element: &Format,
    size: u64,
    depth: u32,
    looks: &mut u32,
) -> Option<FixedSize>
    ensures fixed { IfSome result (λ z. IsFixed registry.now depth (array_shape (shape_of element.now) size) z.bytes z.nodes × (0 < z.nodes)) }
    ensures looks { looks.new ≤ looks.old }
{
    if size == 0 {
        return Some(NODE);
    }
    let each = value_size(registry, element, depth, looks)?;
    NODE.followed_by(each.times(size)?)
}

/// The size of one value of each format in `row`.
#[cycle(measuring)]
#[inline(always)]
fn row_size(registry: &Registry, row: Row<'_>, depth: u32, looks: &mut u32) -> Option<FixedSize>
    ensures fixed { IfSome result (λ z. IsFixed registry.now depth (tuple_shape (formats_shapes (row_formats row.entry))) z.bytes z.nodes × (0 < z.nodes)) }
    ensures looks { looks.new ≤ looks.old }
{
    let mut whole = NODE;
    for place in 0..row.len() {
        whole = whole.followed_by(value_size(registry, row.at(place), depth, looks)?)?;
    }
    Some(whole)
}

/// The size of each value of the container `name`.
#[cycle(measuring)]
fn named_size(registry: &Registry, name: &str, depth: u32, looks: &mut u32) -> Option<FixedSize>
    ensures fixed { IfSome result (λ z. IsFixed registry.now depth (name_shape name.now) z.bytes z.nodes × (0 < z.nodes)) }
    ensures looks { looks.new ≤ looks.old }
{
    if depth == 0 {
        return None;
    }
    let container = registry.container(name)?;
    NODE.followed_by(content_size(registry, container, depth - 1, looks)?)
}

/// The size of a container's contents.
#[cycle(measuring)]
fn content_size(
    registry: &Registry,
    container: &Container,
    depth: u32,
    looks: &mut u32,
) -> Option<FixedSize>
    ensures fixed { IfSome result (λ z. IsFixedInside registry.now depth (content (container_of container.now)) z.bytes z.nodes × (0 < z.nodes)) }
    ensures looks { looks.new ≤ looks.old }
{
    match container.content() {
        Content::Of(Layout::Unit) => Some(NODE),
        Content::Of(Layout::NewType(format)) => value_size(registry, format, depth, looks),
        Content::Of(Layout::Tuple(formats)) => {
            row_size(registry, Row::Formats(formats), depth, looks)
        }
        Content::Of(Layout::Struct(fields)) => {
            row_size(registry, Row::Fields(fields), depth, looks)
        }
        Content::OneOf(_) => None,
    }
}
