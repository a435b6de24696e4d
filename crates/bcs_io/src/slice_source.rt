//! A slice as a source.
ghost use Rattle.std.specs.Prelude.{◌≡◌, ℕ, ◌-◌, ◌<◌, false, List, Some, Ok, length, min, drop, IfOk};
ghost use Rattle.std.specs.Io.Iter.{u64_saturate};
ghost use Rattle.std.proofs.Common.{arith};
ghost use Rattle.bcs_io.specs.Giving.{Gives};

use crate::source::{ByteSource, SourceFailed};
use std::marker::Model;

/// The bytes of a slice. It never fails.
#[derive(Drop)]
pub struct SliceSource<'a> {
    rest: &'a [u8],
}

// Contracts see the remaining bytes.
impl<'a> Model for SliceSource<'a> {
    ghost Value = { List ℕ };

    ghost view = { λ source. source.rest.now };
}

impl<'a> SliceSource<'a> {
    pub fn new(bytes: &'a [u8]) -> Self
        ensures { result ≡ bytes.now }
    {
        SliceSource { rest: bytes }
    }

    /// The remaining bytes.
    pub fn rest(&self) -> &'a [u8]
        ensures { result.now ≡ self.now }
    {
        self.rest
    }
}

impl<'a> ByteSource for SliceSource<'a> {
    ghost content = { λ rest. Some rest };

    ghost is_failed = { λ _. false };

    ghost allowance = { λ rest. u64_saturate (length rest) };

    ghost bounded = { λ rest. Prim.omega arith };

    fn next(&mut self, buf: &mut [u8]) -> Result<usize, SourceFailed>
        ensures gives { Gives (λ rest. Some rest) (λ _. false) (λ rest. u64_saturate (length rest))
            self.old self.new result buf.new }
        ensures count { result ≡ Ok (min (length self.old) (length buf.old)) }
        ensures rest { IfOk result (λ n. self.new ≡ drop n self.old) }
    {
        let count = self.rest.len().min(buf.len());
        let (front, rest) = self.rest.split_at(count);
        buf[..count].copy_from_slice(front);
        self.rest = rest;
        Ok(count)
    }

    fn failed(&self) -> bool {
        false
    }
}
