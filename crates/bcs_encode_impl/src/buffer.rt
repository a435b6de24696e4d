//! A byte buffer, with a fixed size on the stack or growing on the heap.
ghost use Rattle.std.specs.Prelude.{◌≡◌, ◌+◌, ◌*◌, ◌<◌, ◌≤◌, [], ◌∷◌, ◌++◌, Ok, IfOk, length, take, true, false};
ghost use Rattle.bcs_registry_model.specs.Whole.{whole_len, whole_shape};
ghost use Rattle.bcs_value_model.specs.View.{items_trees};
ghost use Rattle.bcs_encode_impl.specs.Writing.{items_written};

use crate::number_rows;
use arrayvec::ArrayVec;
use bcs_registry_model::IntegerKind;
use bcs_value_model::Value;
use std::alloc::{AllocError, Global};
use std::marker::Model;

/// The capacity of a fixed buffer, in bytes.
pub const ROOM: usize = 1024;

/// The bytes appended so far. If a method returns `false`, it has appended none of its bytes, or only some of them.
#[derive(Drop)]
pub struct Buffer {
    store: Store,
    /// How many bytes didn't fit.
    missed: usize,
}

#[derive(Drop)]
pub(crate) enum Store {
    Fixed(ArrayVec<u8, ROOM>),
    Growing(Vec<u8>),
}

impl Model for Buffer {
    ghost use Rattle.bcs_encode_impl.specs.Held.{HeldBytes, held_code};

    ghost Value = { HeldBytes };

    ghost coded = { held_code };

    ghost use Rattle.bcs_encode_impl.specs.Stored.{stored};

    ghost view = { λ b. stored b.store };
}

impl Buffer {
    /// A buffer of `ROOM` bytes, which never allocates.
    #[inline(always)]
    pub fn fixed() -> Buffer
        ensures items { result.items ≡ [] }
        ensures capacity { result.capacity ≡ ROOM }
    {
        Buffer {
            store: Store::Fixed(ArrayVec::new()),
            missed: 0,
        }
    }

    /// A heap buffer with a capacity of `room` bytes, which grows if necessary.
    #[inline(always)]
    pub fn growing(alloc: Global, room: usize) -> Result<Buffer, AllocError>
        ensures items { IfOk result (λ b. b.items ≡ []) }
        ensures capacity { IfOk result (λ b. b.capacity ≡ room) }
        ensures grows { IfOk result (λ b. b.grows ≡ true) }
    {
        Ok(Buffer {
            store: Store::Growing(Vec::with_capacity(alloc, room)?),
            missed: 0,
        })
    }

    /// The number of bytes.
    #[inline(always)]
    pub fn len(&self) -> usize
        ensures { result ≡ length self.now.items }
    {
        match &self.store {
            Store::Fixed(place) => place.len(),
            Store::Growing(bytes) => bytes.len(),
        }
    }

    /// The number of bytes, including those that didn't fit.
    pub fn needed(&self) -> usize {
        self.len().saturating_add(self.missed)
    }

    /// Counts bytes that aren't appended. The count only sizes the next buffer, so no contract mentions it.
    #[inline(always)]
    pub fn count_missed(&mut self, count: usize)
        ensures { self.new ≡ self.old }
    {
        self.missed = self.missed.saturating_add(count);
    }

    pub fn as_slice(&self) -> &[u8]
        ensures { result.now ≡ self.now.items }
    {
        match &self.store {
            Store::Fixed(place) => place.as_slice(),
            Store::Growing(bytes) => bytes.as_slice(),
        }
    }

    /// Appends a byte if it fits.
    #[inline(always)]
    pub fn push(&mut self, byte: u8) -> bool
        ensures appended { result ≡ true → self.new.items ≡ self.old.items ++ byte ∷ [] }
        ensures full { result ≡ false → self.old.capacity ≤ length self.old.items }
        ensures capacity { self.old.capacity ≤ self.new.capacity }
        ensures grows { self.new.grows ≡ self.old.grows }
    {
        match &mut self.store {
            Store::Fixed(place) => {
                let done = place.try_push(byte).is_ok();
                self.missed = missed_after(self.missed, done, 1);
                done
            }
            Store::Growing(bytes) => bytes.push(byte).is_ok(),
        }
    }

    /// Appends bytes if they fit.
    #[inline(always)]
    pub fn extend(&mut self, piece: &[u8]) -> bool
        ensures appended { result ≡ true → self.new.items ≡ self.old.items ++ piece.now }
        ensures full { result ≡ false → self.old.capacity < length self.old.items + length piece.now }
        ensures capacity { self.old.capacity ≤ self.new.capacity }
        ensures grows { self.new.grows ≡ self.old.grows }
    {
        match &mut self.store {
            Store::Fixed(place) => {
                let done = place.try_extend_from_slice(piece).is_ok();
                self.missed = missed_after(self.missed, done, piece.len());
                done
            }
            Store::Growing(bytes) => bytes.extend_from_slice(piece).is_ok(),
        }
    }

    /// Appends a list of integers, if they are in range. A fixed buffer accepts none.
    pub fn push_numbers(&mut self, format: IntegerKind, items: &[Value]) -> bool
        ensures appended { result ≡ true → items_written [] (items_trees items.now) (whole_shape format) self.old.items ≡ Ok self.new.items }
        ensures full { result ≡ false → self.old.grows ≡ true
            → IfOk (items_written [] (items_trees items.now) (whole_shape format) self.old.items)
            (λ _. self.old.capacity < length self.old.items + length items.now * whole_len format) }
    {
        match &mut self.store {
            Store::Fixed(_) => false,
            Store::Growing(bytes) => number_rows::push_numbers(format, items, bytes).is_ok(),
        }
    }

    /// Overwrites everything from `start` to the end with `piece`, which must have the same length.
    pub fn overwrite(&mut self, start: usize, piece: &[u8])
        requires { start + length piece.now ≡ length self.old.items }
        ensures { self.new.items ≡ take start self.old.items ++ piece.now }
    {
        match &mut self.store {
            Store::Fixed(place) => place.as_mut_slice()[start..].copy_from_slice(piece),
            Store::Growing(bytes) => bytes[start..].copy_from_slice(piece),
        }
    }

    /// Copies the bytes into a vector, with one allocation.
    pub fn to_vec(&self, alloc: Global) -> Result<Vec<u8>, AllocError>
        ensures { IfOk result (λ v. v.items ≡ self.now.items) }
    {
        self.as_slice().to_vec(alloc)
    }

    /// Returns the bytes as a vector: the one that contains them, or a copy.
    pub fn into_vec(self, alloc: Global) -> Result<Vec<u8>, AllocError>
        ensures { IfOk result (λ v. v.items ≡ self.items) }
    {
        match self.store {
            Store::Fixed(place) => place.as_slice().to_vec(alloc),
            Store::Growing(bytes) => Ok(bytes),
        }
    }
}

/// The updated count of missed bytes: unchanged if the write of `count` bytes was `done`, and otherwise larger by
/// `count`.
#[inline(always)]
fn missed_after(missed: usize, done: bool, count: usize) -> usize {
    if done {
        missed
    } else {
        missed.saturating_add(count)
    }
}
