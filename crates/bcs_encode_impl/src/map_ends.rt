//! Ends map entries and maps: sorts the entries by their encoded keys.
ghost use Rattle.std.specs.Prelude.{◌≡◌, ◌+◌, ◌<◌, ◌≤◌, [], ◌∷◌, ◌++◌, Err, IfOk, Ok, OnErr, OnOk, false, true, if◌then◌else◌, drop, length, map, take, vec_capacity, vec_len};
ghost use Rattle.std.specs.List.{flat_map};
ghost use Rattle.bcs_encode_spec.specs.Entries.{entry_bytes};
ghost use Rattle.bcs_encode_spec.specs.declared.fault.EncodeFault.TheVariants.{RepeatedKey};
ghost use Rattle.bcs_encode_impl.specs.Laying.{span_entry};
ghost use Rattle.bcs_encode_impl.specs.Writing.{sorted_entries_written};
ghost use Rattle.bcs_encode_impl.specs.Appends.{is_told, is_complete, rises_after, told};

use crate::output::{Extent, Output};
use crate::spans::push_in_order;
use bcs_key_order::spans::{Span, rise, rises};
use std::alloc::AllocError;

impl Output {
    /// Ends the map entry that was just appended. An output that sorts records the span, and gives up only if there is
    /// no memory for it. A fixed output gives up unless the key is above the key before.
    pub fn end_entry(&mut self, before: Option<Span>, entry: Span)
        ensures ended { is_told self.new.extent ≡ true → (self.new.extent ≡ self.old.extent) × (self.new.bytes ≡ self.old.bytes)
            × (self.old.extent ≡ Extent.Sorting → self.new.spans.items ≡ self.old.spans.items ++ entry ∷ [])
            × (self.old.extent ≡ Extent.Rising → (self.new.spans.items ≡ self.old.spans.items) × (rises_after self.old.bytes.items before entry ≡ true)) }
        ensures full { self.old.extent ≡ Extent.Sorting → is_told self.new.extent ≡ false → vec_capacity self.old.spans ≤ vec_len self.old.spans }
    {
        match self.extent {
            Extent::Rising => self.compare(before, entry),
            Extent::Sorting => self.note(entry),
            Extent::Repeated | Extent::Incomplete => {}
        }
    }

    /// Gives up unless the entry's key is above the key of the entry before.
    fn compare(&mut self, before: Option<Span>, entry: Span)
        ensures extent { self.new.extent ≡ (if rises_after self.old.bytes.items before entry then self.old.extent else Extent.Incomplete) }
        ensures bytes { self.new.bytes ≡ self.old.bytes }
        ensures spans { self.new.spans.items ≡ self.old.spans.items }
    {
        let done = rises_behind(before, entry, self.bytes.as_slice());
        self.extent = self.extent.after(done);
    }

    /// Records the span of an entry, if there is memory.
    fn note(&mut self, entry: Span)
        ensures full { is_told self.old.extent ≡ true → is_told self.new.extent ≡ false → vec_capacity self.old.spans ≤ vec_len self.old.spans }
        ensures noted { is_told self.new.extent ≡ true → (self.new.extent ≡ self.old.extent) × (self.new.spans.items ≡ self.old.spans.items ++ entry ∷ []) }
        ensures bytes { self.new.bytes ≡ self.old.bytes }
    {
        let done = self.spans.push(entry).is_ok();
        self.extent = self.extent.after(done);
    }

    /// Ends a map whose entries begin at `start`: sorts the entries of the spans from `first` on by their encoded keys,
    /// and drops the spans. Gives up only if the scratch buffer has no room for the entries.
    pub fn end_map(&mut self, first: usize, start: usize)
        requires first { self.old.extent ≡ Extent.Sorting → first ≤ length self.old.spans.items }
        requires laid { self.old.extent ≡ Extent.Sorting
            → take start self.old.bytes.items ++ flat_map entry_bytes (map (span_entry self.old.bytes.items) (drop first self.old.spans.items)) ≡ self.old.bytes.items }
        requires filled { self.old.extent ≡ Extent.Sorting
            → start + length (flat_map entry_bytes (map (span_entry self.old.bytes.items) (drop first self.old.spans.items))) ≡ length self.old.bytes.items }
        ensures sorted { self.old.extent ≡ Extent.Sorting → is_told self.new.extent ≡ true
            → (told self.new ≡ sorted_entries_written (map (span_entry self.old.bytes.items) (drop first self.old.spans.items)) (take start self.old.bytes.items))
            × (is_complete self.new.extent ≡ true → (self.new.extent ≡ Extent.Sorting) × (self.new.spans.items ≡ take first self.old.spans.items)) }
        ensures full { self.old.extent ≡ Extent.Sorting → is_told self.new.extent ≡ false
            → vec_capacity self.old.scratch < length (flat_map entry_bytes (map (span_entry self.old.bytes.items) (drop first self.old.spans.items))) }
        ensures others { (self.old.extent ≡ Extent.Sorting → ⊥)
            → (self.new.extent ≡ self.old.extent) × (self.new.bytes ≡ self.old.bytes) × (self.new.spans.items ≡ self.old.spans.items) }
    {
        let Extent::Sorting = self.extent else {
            return;
        };
        if rise(&self.spans[first..], self.bytes.as_slice()) {
            self.spans.truncate(first);
            return;
        }
        self.arrange(first, start);
    }

    /// `end_map` for entries that don't ascend yet, through the scratch buffer.
    fn arrange(&mut self, first: usize, start: usize)
        requires first { first ≤ length self.old.spans.items }
        requires filled { start + length (flat_map entry_bytes (map (span_entry self.old.bytes.items) (drop first self.old.spans.items))) ≡ length self.old.bytes.items }
        ensures sorted { is_told self.new.extent ≡ true
            → (told self.new ≡ sorted_entries_written (map (span_entry self.old.bytes.items) (drop first self.old.spans.items)) (take start self.old.bytes.items))
            × (is_complete self.new.extent ≡ true → (self.new.extent ≡ Extent.Sorting) × (self.new.spans.items ≡ take first self.old.spans.items)) }
        ensures full { is_told self.new.extent ≡ false → vec_capacity self.old.scratch < length (flat_map entry_bytes (map (span_entry self.old.bytes.items) (drop first self.old.spans.items))) }
    {
        match self.lay_in_order(first) {
            Ok(differ) => self.put_back(differ, start),
            Err(_) => self.give_up(),
        }
    }

    /// Copies the entries of the spans from `first` on to the scratch buffer in key order, drops the spans, and returns
    /// whether all keys differ.
    fn lay_in_order(&mut self, first: usize) -> Result<bool, AllocError>
        requires { first ≤ length self.old.spans.items }
        ensures sorted { IfOk result (λ differ. sorted_entries_written (map (span_entry self.old.bytes.items) (drop first self.old.spans.items)) []
            ≡ (if differ then Ok self.new.scratch.items else Err RepeatedKey)) }
        ensures len { IfOk result (λ differ. differ ≡ true → length self.new.scratch.items ≡ length (flat_map entry_bytes (map (span_entry self.old.bytes.items) (drop first self.old.spans.items)))) }
        ensures full { OnErr result (vec_capacity self.old.scratch < length (flat_map entry_bytes (map (span_entry self.old.bytes.items) (drop first self.old.spans.items)))) }
        ensures spans { OnOk result (self.new.spans.items ≡ take first self.old.spans.items) }
        ensures bytes { self.new.bytes ≡ self.old.bytes }
    {
        self.scratch.clear();
        let differ = push_in_order(
            &mut self.spans[first..],
            self.bytes.as_slice(),
            &mut self.scratch,
        )?;
        self.spans.truncate(first);
        Ok(differ)
    }

    /// Overwrites the entries from `start` on with those in the scratch buffer, which have the same length; if keys
    /// don't differ, reports the repeated key.
    fn put_back(&mut self, differ: bool, start: usize)
        requires { differ ≡ true → start + length self.old.scratch.items ≡ length self.old.bytes.items }
        ensures is_told { is_told self.new.extent ≡ true }
        ensures told { told self.new ≡ (if differ then Ok (take start self.old.bytes.items ++ self.old.scratch.items) else Err RepeatedKey) }
        ensures kept { is_complete self.new.extent ≡ true → (self.new.extent ≡ Extent.Sorting) × (self.new.spans.items ≡ self.old.spans.items) }
    {
        if !differ {
            self.extent = Extent::Repeated;
            return;
        }
        self.bytes.overwrite(start, &self.scratch);
        self.extent = Extent::Sorting;
    }
}

/// Whether the entry's key is above the key of the entry before, if there is one.
fn rises_behind(before: Option<Span>, entry: Span, bytes: &[u8]) -> bool
    ensures { result ≡ rises_after bytes.now before entry }
{
    match before {
        None => true,
        Some(before) => rises(before, entry, bytes),
    }
}
