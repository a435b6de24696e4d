//! Reads the lines of a source.
ghost use Rattle.std.specs.Prelude.{◌≡◌, ℕ, ◌+◌, ◌<◌, ◌≤◌, true, false, nat_lt, [], length, take, drop, slice_range, vec_len, Ok, Err};
ghost use Rattle.bcs_io.specs.Lines.{HasNoLineFeed};
ghost use Rattle.bcs_io.specs.Held.{HeldLine, FindsLineFeed};
ghost use Rattle.bcs_io.specs.Advancing.{TakesLine, HasNoLine, FailsInLine, IsTooLong, RunsOut};
ghost use Rattle.bcs_io.specs.Blocks.{ReadsBlock};

use crate::ByteSource;
use crate::next_fault::NextFault;
use memchr::memchr;
use std::alloc::Global;
use std::marker::Model;

// The number of bytes requested from the source at a time.
const BLOCK: usize = 65536;

/// A line of a source, and the bytes that were read after it. The memory is reused for each line.
#[derive(Drop)]
pub struct LineBuffer {
    held: Vec<u8>,
    start: usize,
    end: usize,
    next: usize,
}

// Contracts see the line (`start` to `end`) and the rest (from `next` on).
impl Model for LineBuffer {
    ghost Value = { HeldLine };

    ghost view = { λ buffer. record {
      line = slice_range buffer.held.items buffer.start buffer.end;
      rest = drop buffer.next buffer.held.items;
    } };

    ghost invariant = { λ buffer. (buffer.start ≤ buffer.end) × (buffer.end ≤ buffer.next)
        × (buffer.next ≤ vec_len buffer.held) };
}

impl LineBuffer {
    /// An empty buffer.
    pub fn new(alloc: Global) -> Self
        ensures { result ≡ record { line = []; rest = [] } }
    {
        LineBuffer {
            held: Vec::new(alloc),
            start: 0,
            end: 0,
            next: 0,
        }
    }

    /// The current line, without its line feed.
    pub fn line(&self) -> &[u8]
        ensures { result.now ≡ self.now.line }
    {
        &self.held[self.start..self.end]
    }

    /// Reads the next line, and returns whether there is one. Fails with `TooLong` if the line has more than `limit`
    /// bytes, with `Read` if the source fails, and with `OutOfMemory` if an allocation fails.
    pub fn advance<S: ByteSource>(&mut self, source: &mut S, limit: u64) -> Result<bool, NextFault>
        ensures line { result ≡ Ok true →
            TakesLine S.content S.is_failed S.allowance limit source.old source.new self.old self.new }
        ensures end { result ≡ Ok false →
            HasNoLine S.content S.is_failed S.allowance source.old source.new self.old self.new }
        ensures read { result ≡ Err NextFault.Read →
            FailsInLine S.content S.is_failed S.allowance limit source.old source.new self.old self.new }
        ensures too_long { result ≡ Err NextFault.TooLong →
            IsTooLong S.content S.is_failed S.allowance limit source.old source.new self.old self.new }
        ensures memory { result ≡ Err NextFault.OutOfMemory →
            RunsOut S.content S.is_failed S.allowance source.old source.new self.old }
    {
        let mut searched = 0;
        loop {
            if let Some(count) = self.find_line_feed(searched) {
                if limit < count as u64 {
                    return Err(NextFault::TooLong);
                }
                self.take_line(count);
                return Ok(true);
            }
            searched = self.rest_len();
            if limit < searched as u64 {
                return Err(NextFault::TooLong);
            }
            if self.read_block(source)? == 0 {
                return Ok(self.take_rest());
            }
        }
    }

    fn rest_len(&self) -> usize
        ensures { result ≡ length self.now.rest }
    {
        self.held.len() - self.next
    }

    // Finds the first line feed in the rest. Its first `searched` bytes must not contain one.
    fn find_line_feed(&self, searched: usize) -> Option<usize>
        requires within { searched ≤ length self.now.rest }
        requires plain { HasNoLineFeed (take searched self.now.rest) }
        ensures { FindsLineFeed self.now.rest result }
    {
        let place = memchr(b'\n', &self.held[self.next + searched..])?;
        Some(searched + place)
    }

    // Makes the first `count` bytes of the rest the line, and drops the line feed after them.
    fn take_line(&mut self, count: usize)
        requires { count < length self.old.rest }
        ensures { self.new ≡ record { line = take count self.old.rest; rest = drop (count + 1) self.old.rest } }
    {
        self.start = self.next;
        self.end = self.next + count;
        self.next = self.end + 1;
    }

    // Makes the rest the line, and returns whether it has any bytes.
    fn take_rest(&mut self) -> bool
        ensures some { result ≡ nat_lt 0 (length self.old.rest) }
        ensures after { self.new ≡ record { line = self.old.rest; rest = [] } }
    {
        self.start = self.next;
        self.end = self.held.len();
        self.next = self.end;
        self.start < self.end
    }

    // Appends a block to the rest, and returns the number of bytes read.
    fn read_block<S: ByteSource>(&mut self, source: &mut S) -> Result<usize, NextFault>
        ensures { ReadsBlock S.content S.is_failed S.allowance source.old source.new self.old.rest
            self.new.rest result }
    {
        self.move_to_front();
        let mut block = [0; BLOCK];
        let Ok(count) = source.next(&mut block) else {
            return Err(NextFault::Read);
        };
        if self.held.extend_from_slice(&block[..count]).is_err() {
            return Err(NextFault::OutOfMemory);
        }
        Ok(count)
    }

    // Moves the rest to the start of the buffer, so the buffer only grows with the longest line.
    fn move_to_front(&mut self)
        ensures { self.new.rest ≡ self.old.rest }
    {
        if self.next > 0 {
            let len = self.held.len();
            self.held.as_mut_slice().copy_within(self.next..len, 0);
            self.held.truncate(len - self.next);
            self.start = 0;
            self.end = 0;
            self.next = 0;
        }
    }
}
