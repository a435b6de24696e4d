//! Reads values from a source, each into the caller's slot.
ghost use Rattle.bcs_registry_model.specs.View.{shape_of};
ghost use Rattle.bcs_value_model.specs.View.{tree_of};
ghost use Rattle.bcs_decode_spec.specs.Reading.{building};
ghost use Rattle.bcs_decode_source.specs.Sees.{OutOfMemoryIfAllocating, takes_no_memory, read, option_node};
ghost use Rattle.bcs_decode_source.specs.Reads.{Ready, Reads};

use crate::containers::named;
use crate::leaf::leaf;
use crate::leaves::flag_node;
use crate::maps::pairs;
use crate::reader::Reader;
use crate::rows::{items, tuple};
use crate::slots::put_absent;
use bcs_decode_spec::DecodeFault;
use bcs_io::ByteSource;
use bcs_registry::Format;
use bcs_registry_model::Kind;
use bcs_value::Value;
use bcs_value_model::slot::wrap_present;

/// Reads one value of `format`. At most `depth` more containers may be opened.
#[inline(always)]
#[cycle(streaming)]
pub fn value<S: ByteSource>(
    reader: &mut Reader<'_, S>,
    format: &Format,
    depth: u32,
    slot: &mut Value,
) -> Result<(), DecodeFault>
    requires ready { Ready S.is_failed S.allowance reader.old }
    ensures reads { Reads S.content S.is_failed S.allowance (λ _. tree_of slot.new) result reader.old (read reader.old.registry.now depth (shape_of format.now)) reader.new }
    ensures memory { OutOfMemoryIfAllocating (takes_no_memory (shape_of format.now)) result reader.old.at.now }
{
    match format.kind() {
        Kind::TypeName(name) => named(reader, name, depth, slot),
        Kind::Opt(part) => option(reader, part, depth, slot),
        Kind::Seq(element) => items(reader, element, None, depth, slot),
        Kind::Map(key, part) => pairs(reader, key, part, depth, slot),
        Kind::Tuple(formats) => tuple(reader, formats, depth, slot),
        Kind::TupleArray(element, size) => items(reader, element, Some(size), depth, slot),
        Kind::Scalar(_) => leaf(reader, format, slot),
    }
}

/// Reads an option.
#[inline(never)]
#[cycle(streaming)]
#[tactic(auto, unfolding(bcs_decode_spec::specs::Reading::chain, bcs_decode_spec::specs::Reading::give, crate::specs::Sees::option_node))]
fn option<S: ByteSource>(
    reader: &mut Reader<'_, S>,
    part: &Format,
    depth: u32,
    slot: &mut Value,
) -> Result<(), DecodeFault>
    requires ready { Ready S.is_failed S.allowance reader.old }
    ensures reads { Reads S.content S.is_failed S.allowance (λ _. tree_of slot.new) result reader.old (option_node building (read reader.old.registry.now depth (shape_of part.now))) reader.new }
{
    if flag_node(reader)? {
        value(reader, part, depth, slot)?;
        wrap_present(reader.alloc, slot)?;
    } else {
        put_absent(slot);
    }
    Ok(())
}
