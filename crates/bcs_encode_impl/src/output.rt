//! What the encoder appends while it validates.
ghost use Rattle.std.specs.Prelude.{◌≡◌, ◌+◌, ◌*◌, ◌<◌, [], ◌∷◌, ◌++◌, false, true, length, IfOk, Ok, if◌then◌else◌};
ghost use Rattle.bcs_num.specs.Le.{width_of};
ghost use Rattle.bcs_num.specs.Uleb.{uleb};
ghost use Rattle.bcs_registry_model.specs.Container.{of};
ghost use Rattle.bcs_registry_model.specs.Whole.{whole_len, whole_shape};
ghost use Rattle.bcs_value_model.specs.View.{items_trees, tree_of};
ghost use Rattle.bcs_encode_impl.specs.Writing.{bytes_written, items_written, length_written, signed_written, unsigned_written, written};
ghost use Rattle.bcs_encode_impl.specs.Appends.{Appends, TakesWhatFits, is_complete};

use crate::buffer::{Buffer, ROOM};
use bcs_key_order::spans::Span;
use bcs_num::{GREATEST_LEN, LENGTH_LIMIT, Width, put_le, put_le_signed, put_uleb};
use bcs_registry_model::IntegerKind;
use bcs_value_model::Value;
use std::alloc::{AllocError, Global};

/// How much of what should be appended has been appended.
#[derive(Clone, Copy)]
pub enum Extent {
    /// All of it, and the keys of each map ascend as given. This output never allocates.
    Rising,
    /// All of it, with the entries of each map sorted.
    Sorting,
    /// A map repeats a key. Nothing was appended after that.
    Repeated,
    /// Not all: no room or memory was left, the output discards everything, or a fixed output met a key out of order.
    Incomplete,
}

impl Extent {
    /// The extent after a step: unchanged if it appended all it should, and otherwise `Incomplete`.
    #[inline(always)]
    pub(crate) fn after(self, done: bool) -> Extent
        ensures { result ≡ (if done then self else Extent.Incomplete) }
    {
        if done { self } else { Extent::Incomplete }
    }
}

/// The bytes so far. Once something couldn't be appended, nothing that follows is.
#[derive(Drop)]
pub struct Output {
    pub bytes: Buffer,
    /// If entries are sorted: their spans in all open maps, with inner maps after outer ones.
    pub spans: Vec<Span>,
    pub scratch: Vec<u8>,
    pub extent: Extent,
}

impl Output {
    /// An output of at most `ROOM` bytes, which never allocates.
    #[inline(always)]
    pub fn fixed(alloc: Global) -> Output
        ensures bytes { result.bytes.items ≡ [] }
        ensures capacity { result.bytes.capacity ≡ ROOM }
        ensures extent { result.extent ≡ Extent.Rising }
    {
        Output {
            bytes: Buffer::fixed(),
            spans: Vec::new(alloc),
            scratch: Vec::new(alloc),
            extent: Extent::Rising,
        }
    }

    /// An output in heap memory: reserves `room` bytes now, and grows if more are written.
    #[inline(always)]
    pub fn growing(alloc: Global, room: usize) -> Result<Output, AllocError>
        ensures bytes { IfOk result (λ o. o.bytes.items ≡ []) }
        ensures capacity { IfOk result (λ o. o.bytes.capacity ≡ room) }
        ensures grows { IfOk result (λ o. o.bytes.grows ≡ true) }
        ensures extent { IfOk result (λ o. o.extent ≡ Extent.Sorting) }
    {
        Ok(Output {
            bytes: Buffer::growing(alloc, room)?,
            spans: Vec::new(alloc),
            scratch: Vec::new(alloc),
            extent: Extent::Sorting,
        })
    }

    /// An output that discards everything and never allocates.
    #[inline(always)]
    pub fn discarding(alloc: Global) -> Output {
        let mut out = Output::fixed(alloc);
        out.give_up();
        out
    }

    /// Whether everything has been appended.
    #[inline(always)]
    pub fn is_complete(&self) -> bool
        ensures { result ≡ is_complete self.now.extent }
    {
        matches!(self.extent, Extent::Rising | Extent::Sorting)
    }

    /// Discards everything from now on.
    #[inline(always)]
    pub(crate) fn give_up(&mut self)
        ensures extent { self.new.extent ≡ Extent.Incomplete }
        ensures bytes { self.new.bytes ≡ self.old.bytes }
    {
        self.extent = Extent::Incomplete;
    }

    #[inline(always)]
    pub fn push_byte(&mut self, byte: u8)
        ensures appended { Appends self.old self.new (λ b. Ok (b ++ byte ∷ [])) }
        ensures fits { TakesWhatFits self.old self.new (λ b. Ok (b ++ byte ∷ [])) }
    {
        if !self.is_complete() {
            self.bytes.count_missed(1);
            return;
        }
        let done = self.bytes.push(byte);
        self.extent = self.extent.after(done);
    }

    #[inline(always)]
    fn push_piece(&mut self, piece: &[u8])
        ensures appended { Appends self.old self.new (λ b. Ok (b ++ piece.now)) }
        ensures fits { TakesWhatFits self.old self.new (λ b. Ok (b ++ piece.now)) }
    {
        if !self.is_complete() {
            self.bytes.count_missed(piece.len());
            return;
        }
        let done = self.bytes.extend(piece);
        self.extent = self.extent.after(done);
    }

    /// Appends a ULEB128 number. Most lengths and variant numbers have one byte.
    pub fn push_number(&mut self, number: u32)
        ensures appended { Appends self.old self.new (λ b. Ok (b ++ uleb number)) }
        ensures fits { TakesWhatFits self.old self.new (λ b. Ok (b ++ uleb number)) }
    {
        if number < 128 {
            self.push_byte(number as u8);
            return;
        }
        let mut bytes = [0; 5];
        let len = put_uleb(number, &mut bytes);
        self.push_piece(&bytes[..len]);
    }

    /// Appends a length as ULEB128.
    pub fn push_length(&mut self, length: usize)
        ensures appended { Appends self.old self.new (length_written length) }
        ensures fits { TakesWhatFits self.old self.new (length_written length) }
    {
        if length > LENGTH_LIMIT {
            self.give_up();
            return;
        }
        self.push_number(length as u32);
    }

    /// Appends a byte string: its length, then its bytes.
    pub fn push_bytes(&mut self, bytes: &[u8])
        ensures appended { Appends self.old self.new (bytes_written bytes.now) }
        ensures fits { TakesWhatFits self.old self.new (bytes_written bytes.now) }
    {
        self.push_length(bytes.len());
        self.push_piece(bytes);
    }

    /// Appends an unsigned integer of `width`, in little-endian order.
    #[inline(always)]
    pub fn push_unsigned(&mut self, width: Width, number: u128)
        ensures appended { Appends self.old self.new (unsigned_written (width_of width) number) }
        ensures fits { TakesWhatFits self.old self.new (unsigned_written (width_of width) number) }
    {
        if !width.holds_unsigned(number) {
            self.give_up();
            return;
        }
        if let Width::W1 = width {
            self.push_byte(number as u8);
            return;
        }
        let mut bytes = [0; GREATEST_LEN];
        let len = put_le(width, number, &mut bytes);
        self.push_piece(&bytes[..len]);
    }

    /// Appends a signed integer of `width`: two's complement, in little-endian order.
    #[inline(always)]
    pub fn push_signed(&mut self, width: Width, number: i128)
        ensures appended { Appends self.old self.new (signed_written (width_of width) number) }
        ensures fits { TakesWhatFits self.old self.new (signed_written (width_of width) number) }
    {
        if !width.holds_signed(number) {
            self.give_up();
            return;
        }
        let mut bytes = [0; GREATEST_LEN];
        let len = put_le_signed(width, number, &mut bytes);
        self.push_piece(&bytes[..len]);
    }

    /// Appends a list of integers. An integer looks up no container, so the contract uses an empty registry.
    #[inline(never)]
    pub fn push_numbers(&mut self, format: IntegerKind, items: &[Value])
        ensures appended { Appends self.old self.new (items_written [] (items_trees items.now) (whole_shape format)) }
        ensures full { self.old.extent ≡ Extent.Sorting → self.old.bytes.grows ≡ true → is_complete self.new.extent ≡ false
            → IfOk (items_written [] (items_trees items.now) (whole_shape format) self.old.bytes.items)
            (λ _. self.old.bytes.capacity < length self.old.bytes.items + length items.now * whole_len format) }
    {
        match self.extent {
            Extent::Rising => self.push_few(format, items),
            Extent::Sorting => self.push_many(format, items),
            Extent::Repeated | Extent::Incomplete => self.miss_numbers(format, items),
        }
    }

    /// Counts the bytes of a list of integers that isn't appended.
    fn miss_numbers(&mut self, format: IntegerKind, items: &[Value])
        ensures extent { self.new.extent ≡ self.old.extent }
        ensures bytes { self.new.bytes ≡ self.old.bytes }
        ensures spans { self.new.spans.items ≡ self.old.spans.items }
    {
        self.bytes
            .count_missed(items.len().saturating_mul(format.byte_len()));
    }

    fn push_many(&mut self, format: IntegerKind, items: &[Value])
        requires { self.old.extent ≡ Extent.Sorting }
        ensures appended { Appends self.old self.new (items_written [] (items_trees items.now) (whole_shape format)) }
        ensures full { self.old.bytes.grows ≡ true → is_complete self.new.extent ≡ false
            → IfOk (items_written [] (items_trees items.now) (whole_shape format) self.old.bytes.items)
            (λ _. self.old.bytes.capacity < length self.old.bytes.items + length items.now * whole_len format) }
    {
        let done = self.bytes.push_numbers(format, items);
        self.extent = self.extent.after(done);
    }

    /// `push_numbers` for a short list. A long one wouldn't fit.
    fn push_few(&mut self, format: IntegerKind, items: &[Value])
        ensures { Appends self.old self.new (items_written [] (items_trees items.now) (whole_shape format)) }
    {
        if items.len() > ROOM {
            self.miss_numbers(format, items);
            self.give_up();
            return;
        }
        // Lists of bytes are by far the most frequent, so they have a loop of their own.
        if let IntegerKind::Unsigned(Width::W1) = format {
            self.push_each(IntegerKind::Unsigned(Width::W1), items);
            return;
        }
        self.push_each(format, items);
    }

    #[inline(always)]
    fn push_each(&mut self, format: IntegerKind, items: &[Value])
        ensures { Appends self.old self.new (items_written [] (items_trees items.now) (whole_shape format)) }
    {
        for item in items {
            self.push_whole(format, item);
        }
    }

    #[inline(always)]
    fn push_whole(&mut self, format: IntegerKind, value: &Value)
        ensures { Appends self.old self.new (written [] (tree_of value.now) (of (whole_shape format))) }
    {
        match (value, format) {
            (Value::Unsigned(number), IntegerKind::Unsigned(width)) => self.push_unsigned(
                width, *number,
            ),
            (Value::Signed(number), IntegerKind::Signed(width)) => self.push_signed(width, *number),
            _ => self.give_up(),
        }
    }
}
