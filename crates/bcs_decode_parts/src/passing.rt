//! The bytes that come after a value. If no valid value is ahead, the result isn't specified.
ghost use Rattle.std.specs.Prelude.{◌≡◌, List, ℕ, map};
ghost use Rattle.bcs_registry_model.specs.Container.{field_shapes, of, payload_shape};
ghost use Rattle.bcs_registry_model.specs.Shape.{array as array_shape, tuple as tuple_shape};
ghost use Rattle.bcs_registry_model.specs.View.{shape_of, formats_shapes, field_of, payload_of};
ghost use Rattle.bcs_value_model.specs.Tree.{Tree};
ghost use Rattle.bcs_decode_parts.specs.Fronts.{Fronts, IsRest};
ghost use Rattle.bcs_decode_parts.specs.Here.{content_of};

use crate::ahead::Ahead;
use crate::here::{Here, Reached};
use crate::variants::chosen;
use bcs_decode_slice::cursor::Cursor;
use bcs_decode_slice::scanning::{elements, payload, structure, tuple, value};
use bcs_registry::{Format, Named, Registry, VariantFormat};

fn over<'a>(ahead: &Ahead<'a>) -> Cursor<'a>
    ensures rest { result.rest.now ≡ ahead.now.bytes.now }
    ensures place { result.place ≡ 0 }
    ensures nodes { result.nodes ≡ ahead.now.nodes }
{
    Cursor {
        rest: ahead.bytes,
        place: 0,
        nodes: ahead.nodes,
    }
}

/// The bytes after a value of the format.
#[inline(never)]
pub fn after_value<'a>(registry: &Registry, format: &Format, ahead: &Ahead<'a>) -> Option<&'a [u8]>
    ensures { (t : Tree) (after : List ℕ) → Fronts registry.now ahead.now (of (shape_of format.now)) t after → IsRest after result }
{
    let mut cursor = over(ahead);
    match value(registry, format, ahead.depth, &mut cursor) {
        Ok(()) => Some(cursor.rest),
        Err(_) => None,
    }
}

/// The bytes after `count` values of one format.
pub fn after_items<'a>(
    registry: &Registry,
    element: &Format,
    count: u64,
    ahead: &Ahead<'a>,
) -> Option<&'a [u8]>
    ensures { (t : Tree) (after : List ℕ) → Fronts registry.now ahead.now (of (array_shape (shape_of element.now) count)) t after → IsRest after result }
{
    let mut cursor = over(ahead);
    match elements(registry, element, count, ahead.depth, &mut cursor) {
        Ok(()) => Some(cursor.rest),
        Err(_) => None,
    }
}

/// The bytes after a tuple with these formats.
pub fn after_formats<'a>(
    registry: &Registry,
    formats: &[Format],
    ahead: &Ahead<'a>,
) -> Option<&'a [u8]>
    ensures { (t : Tree) (after : List ℕ) → Fronts registry.now ahead.now (of (tuple_shape (formats_shapes formats.now))) t after → IsRest after result }
{
    let mut cursor = over(ahead);
    match tuple(registry, formats, ahead.depth, &mut cursor) {
        Ok(()) => Some(cursor.rest),
        Err(_) => None,
    }
}

/// The bytes after a struct with these fields.
pub fn after_fields<'a>(
    registry: &Registry,
    fields: &[Named<Format>],
    ahead: &Ahead<'a>,
) -> Option<&'a [u8]>
    ensures { (t : Tree) (after : List ℕ) → Fronts registry.now ahead.now (of (tuple_shape (field_shapes (map field_of fields.now)))) t after → IsRest after result }
{
    let mut cursor = over(ahead);
    match structure(registry, fields, ahead.depth, &mut cursor) {
        Ok(()) => Some(cursor.rest),
        Err(_) => None,
    }
}

/// The bytes after the contents of a variant.
pub fn after_payload<'a>(
    registry: &Registry,
    held: &VariantFormat,
    ahead: &Ahead<'a>,
) -> Option<&'a [u8]>
    ensures { (t : Tree) (after : List ℕ) → Fronts registry.now ahead.now (of (payload_shape (payload_of held.now))) t after → IsRest after result }
{
    let mut cursor = over(ahead);
    match payload(registry, held, ahead.depth, &mut cursor) {
        Ok(()) => Some(cursor.rest),
        Err(_) => None,
    }
}

/// The bytes after what was reached.
pub fn after_reached<'a>(registry: &Registry, at: &Reached<'_, 'a>) -> Option<&'a [u8]>
    ensures { (t : Tree) (after : List ℕ) → Fronts registry.now at.now.ahead (content_of at.now.here) t after → IsRest after result }
{
    match at.here {
        Here::Unit => Some(at.ahead.bytes),
        Here::Value(format) => after_value(registry, format, &at.ahead),
        Here::Tuple(formats) => after_formats(registry, formats, &at.ahead),
        Here::Fields(fields) => after_fields(registry, fields, &at.ahead),
        Here::Variants(variants) => {
            let (held, rest) = chosen(variants, at.ahead.bytes)?;
            after_payload(registry, held, &at.ahead.at(rest))
        }
    }
}
