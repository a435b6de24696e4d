//! Skipping a value from a source.
ghost use Rattle.std.specs.Prelude.{◌≡◌, true};
ghost use Rattle.bcs_registry_model.specs.View.{shape_of};
ghost use Rattle.bcs_decode_spec.specs.Reading.{skipping};
ghost use Rattle.bcs_decode_spec.specs.Steps.{skip};
ghost use Rattle.bcs_decode_source.specs.Reads.{Ready, Reads};
ghost use Rattle.bcs_decode_source.specs.Sees.{OutOfMemoryOnlyInKey, option_node};
ghost use Rattle.bcs_decode_source.specs.Reaching.{reaches_no_map};

use crate::bytes::begin;
use crate::leaves::{flag_node, refuse};
use crate::reader::Reader;
use crate::scanning::containers::named;
use crate::scanning::leaves::{bytes, text, truth, whole};
use crate::scanning::maps::pairs;
use crate::scanning::rows::{items, tuple};
use bcs_decode_spec::DecodeFault;
use bcs_io::ByteSource;
use bcs_registry::Format;
use bcs_registry_model::{Kind, Scalar};

/// Validates and skips one value of `format`. At most `depth` more containers may be opened.
#[inline(always)]
#[cycle(scanning)]
pub fn value<S: ByteSource>(
    reader: &mut Reader<'_, S>,
    format: &Format,
    depth: u32,
) -> Result<(), DecodeFault>
    requires ready { Ready S.is_failed S.allowance reader.old }
    ensures reads { Reads S.content S.is_failed S.allowance (λ x. x) result reader.old (skip reader.old.registry.now depth (shape_of format.now)) reader.new }
    ensures memory { reaches_no_map reader.old.registry.now depth (shape_of format.now) ≡ true → OutOfMemoryOnlyInKey result reader.old.at.now }
{
    match format.kind() {
        Kind::Scalar(Scalar::Unit) => begin(reader),
        Kind::Scalar(Scalar::Bool) => truth(reader),
        Kind::Scalar(Scalar::Whole(number)) => whole(reader, number.byte_len()),
        Kind::Scalar(Scalar::Unsupported(_)) => refuse(reader),
        Kind::Scalar(Scalar::Str) => text(reader),
        Kind::Scalar(Scalar::Bytes) => bytes(reader),
        Kind::TypeName(name) => named(reader, name, depth),
        Kind::Opt(part) => option(reader, part, depth),
        Kind::Seq(element) => items(reader, element, None, depth),
        Kind::Map(key, part) => pairs(reader, key, part, depth),
        Kind::Tuple(formats) => tuple(reader, formats, depth),
        Kind::TupleArray(element, size) => items(reader, element, Some(size), depth),
    }
}

/// Skips an option.
#[inline(never)]
#[cycle(scanning)]
fn option<S: ByteSource>(
    reader: &mut Reader<'_, S>,
    part: &Format,
    depth: u32,
) -> Result<(), DecodeFault>
    requires ready { Ready S.is_failed S.allowance reader.old }
    ensures reads { Reads S.content S.is_failed S.allowance (λ x. x) result reader.old (option_node skipping (skip reader.old.registry.now depth (shape_of part.now))) reader.new }
    ensures memory { reaches_no_map reader.old.registry.now depth (shape_of part.now) ≡ true → OutOfMemoryOnlyInKey result reader.old.at.now }
{
    if flag_node(reader)? {
        value(reader, part, depth)
    } else {
        Ok(())
    }
}
