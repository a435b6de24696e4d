//! Reads maps from a source.
ghost use Rattle.std.specs.Prelude.{◌≡◌, [], length, vec_capacity, Some, IfOk};
ghost use Rattle.bcs_registry_model.specs.View.{shape_of};
ghost use Rattle.bcs_value_model.specs.View.{tree_of, entries_pairs};
ghost use Rattle.bcs_decode_spec.specs.Reading.{building};
ghost use Rattle.bcs_decode_source.specs.Kept.{Stands, last_bytes, key_of};
ghost use Rattle.bcs_decode_source.specs.Sees.{read, pairs_node, entries_leaf, key_leaf};
ghost use Rattle.bcs_decode_source.specs.Reads.{Ready, Reads, ReadsInMap, room_for};

use crate::entries::{Entries, put_entries};
use crate::keys::{MapKeys, follow, forget_last_key};
use crate::number::row_count;
use crate::reader::Reader;
use crate::slots::discard;
use crate::values::value;
use bcs_decode_spec::DecodeFault;
use bcs_io::ByteSource;
use bcs_registry::Format;
use bcs_value::Value;
use bcs_value_model::slot::keep_entry;

/// Reads a map.
#[inline(never)]
#[cycle(streaming)]
#[tactic(auto, unfolding(bcs_decode_spec::specs::Reading::chain, bcs_decode_spec::specs::Reading::give, crate::specs::Sees::pairs_node))]
pub fn pairs<S: ByteSource>(
    reader: &mut Reader<'_, S>,
    key: &Format,
    part: &Format,
    depth: u32,
    slot: &mut Value,
) -> Result<(), DecodeFault>
    requires ready { Ready S.is_failed S.allowance reader.old }
    ensures reads { Reads S.content S.is_failed S.allowance (λ _. tree_of slot.new) result reader.old (pairs_node building (read reader.old.registry.now depth (shape_of key.now)) (read reader.old.registry.now depth (shape_of part.now))) reader.new }
{
    let count = row_count(reader, None)?;
    let mut entries = Entries::with_room(reader, count)?;
    match each_entry(reader, key, part, depth, slot, &mut entries) {
        Ok(()) => {
            put_entries(slot, entries);
            Ok(())
        }
        Err(fault) => {
            discard(entries);
            Err(fault)
        }
    }
}

/// Reads the entries of a map, whose keys must ascend.
#[cycle(streaming)]
fn each_entry<S: ByteSource>(
    reader: &mut Reader<'_, S>,
    key: &Format,
    part: &Format,
    depth: u32,
    slot: &mut Value,
    entries: &mut Entries,
) -> Result<(), DecodeFault>
    requires ready { Ready S.is_failed S.allowance reader.old }
    requires empty { entries.old.found.items ≡ [] }
    requires reserved { vec_capacity entries.old.found ≡ room_for reader.old entries.old.count }
    ensures reads { Reads S.content S.is_failed S.allowance (λ _. entries_pairs entries.new.found.items) result reader.old (entries_leaf (read reader.old.registry.now depth (shape_of key.now)) (read reader.old.registry.now depth (shape_of part.now)) entries.old.count) reader.new }
{
    let count = entries.count;
    let mut keys = MapKeys {
        begun: reader.at.kept.len(),
        last: None,
    };
    for _ in 0..count {
        next_key(reader, key, &mut keys, depth, &mut entries.key)?;
        value(reader, part, depth, slot)?;
        keep_entry(&mut entries.found, &mut entries.key, slot)?;
    }
    forget_last_key(reader.at, &keys);
    Ok(())
}

/// Reads a key, which must be above the last key. Its bytes are recorded while it is read.
#[inline(never)]
#[cycle(streaming)]
fn next_key<S: ByteSource>(
    reader: &mut Reader<'_, S>,
    key: &Format,
    keys: &mut MapKeys,
    depth: u32,
    slot: &mut Value,
) -> Result<(), DecodeFault>
    requires ready { Ready S.is_failed S.allowance reader.old }
    requires stands { Stands keys.old.last keys.old.begun (length reader.old.at.now.kept.items) }
    ensures reads { ReadsInMap S.content S.is_failed S.allowance keys.old.begun (λ _. (tree_of slot.new, key_of keys.new.last reader.new.at.now.kept.items)) result reader.old
        (key_leaf (read reader.old.registry.now depth (shape_of key.now)) (last_bytes keys.old.last reader.old.at.now.kept.items)) reader.new }
    ensures begun { keys.new.begun ≡ keys.old.begun }
    ensures stands { IfOk result (λ _. Stands keys.new.last keys.new.begun (length reader.new.at.now.kept.items)) }
    ensures last { IfOk result (λ _. last_bytes keys.new.last reader.new.at.now.kept.items ≡ Some (key_of keys.new.last reader.new.at.now.kept.items)) }
{
    let start = reader.at.place;
    let from = reader.at.kept.len();
    let is_within_key = reader.at.is_in_key;
    reader.at.is_in_key = true;
    value(reader, key, depth, slot)?;
    reader.at.is_in_key = is_within_key;
    follow(reader.at, keys, from, start)?;
    Ok(())
}
