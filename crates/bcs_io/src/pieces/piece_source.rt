//! A source that returns a limited number of bytes in each call.
ghost use Rattle.std.specs.Prelude.{◌≡◌, ◌+◌, ◌-◌, ◌<◌, ◌≤◌, ◌↔◌, ◌^◌, true, false, Some, Option, length, min, IsErr, IfOk, OnErr};
ghost use Rattle.std.proofs.Common.{arith};
ghost use Rattle.bcs_io.specs.Calls.{one_fewer};
ghost use Rattle.bcs_io.specs.PieceSource.{State, Fails, allowance_of, share, after_giving, after_failing};
ghost use Rattle.bcs_io.specs.Giving.{Gives};

use crate::source::{ByteSource, SourceFailed};
use std::marker::Model;

/// Returns the bytes of a slice, at most `piece` in each call. It fails from a chosen call on.
#[derive(Drop)]
pub struct PieceSource<'a> {
    rest: &'a [u8],
    given: u64,
    piece: usize,
    calls_left: Option<u64>,
    has_failed: bool,
}

// Contracts see the remaining bytes, the number of bytes returned, and what the source will do next.
impl<'a> Model for PieceSource<'a> {
    ghost Value = { State };

    ghost view = { λ s. record {
      rest = s.rest.now;
      given = s.given;
      piece = s.piece;
      calls_left = s.calls_left;
      is_failed = s.has_failed;
    } };

    ghost invariant = { λ s. (s.given + length s.rest.now < 2 ^ 64) × (1 ≤ s.piece) };
}

impl<'a> PieceSource<'a> {
    /// A source at the start of `bytes`. Call number `fail_at` of `next`, counted from 1, fails, and so do all later
    /// ones; 0 means 1.
    pub fn new(bytes: &'a [u8], piece: usize, fail_at: Option<u64>) -> Self
        requires { 1 ≤ piece }
        ensures { result ≡ record {
          rest = bytes.now;
          given = 0;
          piece = piece;
          calls_left = one_fewer fail_at;
          is_failed = false;
        } }
    {
        PieceSource {
            rest: bytes,
            given: 0,
            piece,
            calls_left: fail_at.map(|call| call.saturating_sub(1)),
            has_failed: false,
        }
    }

    /// The number of bytes returned so far.
    pub fn given(&self) -> u64
        ensures { result ≡ self.now.given }
    {
        self.given
    }
}

impl<'a> ByteSource for PieceSource<'a> {
    ghost content = { λ source. Some source.rest };

    ghost is_failed = { λ source. source.is_failed };

    ghost allowance = { allowance_of };

    ghost bounded = { λ source. Prim.omega arith };

    fn next(&mut self, buf: &mut [u8]) -> Result<usize, SourceFailed>
        ensures gives { Gives (λ (s : State). Some s.rest) (λ s. s.is_failed) allowance_of self.old
            self.new result buf.new }
        ensures fails { IsErr result ↔ Fails self.old }
        ensures count { IfOk result (λ n. n ≡ share self.old (length buf.old)) }
        ensures ok { IfOk result (λ n. self.new ≡ after_giving self.old n) }
        ensures err { OnErr result (self.new ≡ after_failing self.old) }
    {
        if self.has_failed || self.calls_left == Some(0) {
            self.has_failed = true;
            return Err(SourceFailed);
        }
        let count = self.rest.len().min(self.piece).min(buf.len());
        let (front, rest) = self.rest.split_at(count);
        buf[..count].copy_from_slice(front);
        self.rest = rest;
        self.given += count as u64;
        self.calls_left = self.calls_left.map(|calls| calls - 1);
        Ok(count)
    }

    fn failed(&self) -> bool {
        self.has_failed
    }
}
