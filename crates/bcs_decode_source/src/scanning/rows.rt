//! Skips lists, arrays and tuples in a source.
ghost use Rattle.std.specs.Prelude.{◌≡◌, true};
ghost use Rattle.bcs_registry_model.specs.Shape.{tuple as tuple_shape};
ghost use Rattle.bcs_registry_model.specs.View.{shape_of, formats_shapes};
ghost use Rattle.bcs_decode_spec.specs.Reading.{items_here, skipping};
ghost use Rattle.bcs_decode_spec.specs.Steps.{skip};
ghost use Rattle.bcs_decode_source.specs.Reads.{Ready, Reads};
ghost use Rattle.bcs_decode_source.specs.Sees.{OutOfMemoryOnlyInKey, items_node};
ghost use Rattle.bcs_decode_source.specs.Reaching.{reaches_no_map};

use crate::bytes::begin;
use crate::number::row_count;
use crate::reader::Reader;
use crate::scanning::integers::skip_integers;
use crate::scanning::values::value;
use bcs_decode_spec::DecodeFault;
use bcs_decode_spec::integer_width::integer_width;
use bcs_io::ByteSource;
use bcs_registry::Format;

/// Skips a list, or an array of `size` elements.
#[inline(never)]
#[cycle(scanning)]
pub fn items<S: ByteSource>(
    reader: &mut Reader<'_, S>,
    element: &Format,
    size: Option<u64>,
    depth: u32,
) -> Result<(), DecodeFault>
    requires ready { Ready S.is_failed S.allowance reader.old }
    ensures reads { Reads S.content S.is_failed S.allowance (λ x. x) result reader.old (items_node skipping (skip reader.old.registry.now depth (shape_of element.now)) size) reader.new }
    ensures memory { reaches_no_map reader.old.registry.now depth (shape_of element.now) ≡ true → OutOfMemoryOnlyInKey result reader.old.at.now }
{
    let count = row_count(reader, size)?;
    elements(reader, element, count, depth)
}

/// Skips `count` values: integers in blocks, and others one by one.
#[cycle(scanning)]
fn elements<S: ByteSource>(
    reader: &mut Reader<'_, S>,
    element: &Format,
    count: u64,
    depth: u32,
) -> Result<(), DecodeFault>
    requires ready { Ready S.is_failed S.allowance reader.old }
    ensures reads { Reads S.content S.is_failed S.allowance (λ x. x) result reader.old (items_here skipping (skip reader.old.registry.now depth (shape_of element.now)) count) reader.new }
    ensures memory { reaches_no_map reader.old.registry.now depth (shape_of element.now) ≡ true → OutOfMemoryOnlyInKey result reader.old.at.now }
{
    if let Some(width) = integer_width(element) {
        return skip_integers(reader, width, count);
    }
    for _ in 0..count {
        value(reader, element, depth)?;
    }
    Ok(())
}

/// Skips a tuple.
#[inline(never)]
#[cycle(scanning)]
pub fn tuple<S: ByteSource>(
    reader: &mut Reader<'_, S>,
    formats: &[Format],
    depth: u32,
) -> Result<(), DecodeFault>
    requires ready { Ready S.is_failed S.allowance reader.old }
    ensures reads { Reads S.content S.is_failed S.allowance (λ x. x) result reader.old (skip reader.old.registry.now depth (tuple_shape (formats_shapes formats.now))) reader.new }
    ensures memory { reaches_no_map reader.old.registry.now depth (tuple_shape (formats_shapes formats.now)) ≡ true → OutOfMemoryOnlyInKey result reader.old.at.now }
{
    begin(reader)?;
    for format in formats {
        value(reader, format, depth)?;
    }
    Ok(())
}
