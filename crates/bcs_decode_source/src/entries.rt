//! The entries of a map that is being read.
ghost use Rattle.std.specs.Prelude.{◌≡◌, [], vec_capacity, IfOk};
ghost use Rattle.bcs_value_model.specs.Tree.{pairs};
ghost use Rattle.bcs_value_model.specs.View.{tree_of, entries_pairs};
ghost use Rattle.bcs_decode_source.specs.Reads.{room_for};

use crate::reader::Reader;
use crate::room::make_room;
use bcs_value_model::Value;
use bcs_value_model::slot::put_pairs;
use std::alloc::AllocError;

/// The entries read so far, and the key whose value comes next. They are on the heap, to keep stack frames small.
#[derive(Drop)]
pub struct Entries {
    pub found: Vec<(Value, Value)>,
    pub key: Value,
    /// The number of entries that the map has.
    pub count: u64,
}

impl Entries {
    /// An empty list with capacity for `count` entries, or for the number of bytes known to follow, if that is less.
    #[inline(never)]
    pub fn with_room<S>(reader: &Reader<'_, S>, count: u64) -> Result<Box<Entries>, AllocError>
        ensures count { IfOk result (λ e. e.value.count ≡ count) }
        ensures empty { IfOk result (λ e. e.value.found.items ≡ []) }
        ensures room { IfOk result (λ e. vec_capacity e.value.found ≡ room_for reader.now count) }
    {
        let mut found = Vec::new(reader.alloc);
        make_room(reader, &mut found, count)?;
        let key = Value::Unit;
        Ok(Box::new(reader.alloc, Entries { found, key, count })?)
    }
}

/// Moves the entries into the slot, as a map.
#[inline(never)]
pub fn put_entries(slot: &mut Value, entries: Box<Entries>)
    ensures { tree_of slot.new ≡ pairs (entries_pairs entries.value.found.items) }
{
    put_pairs(slot, Box::into_inner(entries).found);
}
