//! Skips maps in a source. Only the last key is stored, and no value.
ghost use Rattle.std.specs.Prelude.{◌≡◌, length, None, Some, IfOk};
ghost use Rattle.bcs_registry_model.specs.View.{shape_of};
ghost use Rattle.bcs_decode_spec.specs.Reading.{key_here, pairs_here, skipping};
ghost use Rattle.bcs_decode_spec.specs.Steps.{skip};
ghost use Rattle.bcs_decode_source.specs.Kept.{Stands, last_bytes, key_of};
ghost use Rattle.bcs_decode_source.specs.Reads.{Ready, Reads, ReadsInMap};
ghost use Rattle.bcs_decode_source.specs.Sees.{pairs_node};

use crate::keys::{MapKeys, follow, forget_last_key};
use crate::number::row_count;
use crate::reader::Reader;
use crate::scanning::values::value;
use bcs_decode_spec::DecodeFault;
use bcs_io::ByteSource;
use bcs_registry::Format;

/// Skips a map.
#[inline(never)]
#[cycle(scanning)]
pub fn pairs<S: ByteSource>(
    reader: &mut Reader<'_, S>,
    key: &Format,
    part: &Format,
    depth: u32,
) -> Result<(), DecodeFault>
    requires ready { Ready S.is_failed S.allowance reader.old }
    ensures reads { Reads S.content S.is_failed S.allowance (λ x. x) result reader.old (pairs_node skipping (skip reader.old.registry.now depth (shape_of key.now)) (skip reader.old.registry.now depth (shape_of part.now))) reader.new }
{
    let count = row_count(reader, None)?;
    each_entry(reader, key, part, count, depth)
}

/// Skips `count` entries, whose keys must ascend.
#[cycle(scanning)]
fn each_entry<S: ByteSource>(
    reader: &mut Reader<'_, S>,
    key: &Format,
    part: &Format,
    count: u64,
    depth: u32,
) -> Result<(), DecodeFault>
    requires ready { Ready S.is_failed S.allowance reader.old }
    ensures reads { Reads S.content S.is_failed S.allowance (λ x. x) result reader.old (pairs_here skipping (skip reader.old.registry.now depth (shape_of key.now)) (skip reader.old.registry.now depth (shape_of part.now)) None count) reader.new }
{
    let mut keys = MapKeys {
        begun: reader.at.kept.len(),
        last: None,
    };
    for _ in 0..count {
        next_key(reader, key, &mut keys, depth)?;
        value(reader, part, depth)?;
    }
    forget_last_key(reader.at, &keys);
    Ok(())
}

/// Skips a key, which must be above the last key. Its bytes are recorded while it is read.
#[inline(never)]
#[cycle(scanning)]
fn next_key<S: ByteSource>(
    reader: &mut Reader<'_, S>,
    key: &Format,
    keys: &mut MapKeys,
    depth: u32,
) -> Result<(), DecodeFault>
    requires ready { Ready S.is_failed S.allowance reader.old }
    requires stands { Stands keys.old.last keys.old.begun (length reader.old.at.now.kept.items) }
    ensures reads { ReadsInMap S.content S.is_failed S.allowance keys.old.begun (λ _. (tt, key_of keys.new.last reader.new.at.now.kept.items)) result reader.old
        (key_here (skip reader.old.registry.now depth (shape_of key.now)) (last_bytes keys.old.last reader.old.at.now.kept.items)) reader.new }
    ensures begun { keys.new.begun ≡ keys.old.begun }
    ensures stands { IfOk result (λ _. Stands keys.new.last keys.new.begun (length reader.new.at.now.kept.items)) }
    ensures last { IfOk result (λ _. last_bytes keys.new.last reader.new.at.now.kept.items ≡ Some (key_of keys.new.last reader.new.at.now.kept.items)) }
{
    let start = reader.at.place;
    let from = reader.at.kept.len();
    let is_within_key = reader.at.is_in_key;
    reader.at.is_in_key = true;
    value(reader, key, depth)?;
    reader.at.is_in_key = is_within_key;
    follow(reader.at, keys, from, start)?;
    Ok(())
}
