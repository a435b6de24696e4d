//! A sink that accepts a limited number of bytes in each call.
ghost use Rattle.std.specs.Prelude.{◌≡◌, ◌+◌, ◌-◌, ◌<◌, ◌≤◌, ◌↔◌, true, false, [], Some, Option, take, min, IsErr, IfOk, OnErr};
ghost use Rattle.bcs_io.specs.PieceSink.{State, Fails, share, after_taking, after_failing};
ghost use Rattle.bcs_io.specs.Calls.{one_fewer};
ghost use Rattle.bcs_io.specs.Taking.{Takes};

use crate::sink::{ByteSink, SinkFailed};
use std::marker::Model;

/// Stores up to `N` bytes in an array, without allocating. Each call accepts at most `piece` bytes. It fails from a
/// chosen call on, and when the array is full.
#[derive(Drop)]
pub struct PieceSink<const N: usize> {
    bytes: [u8; N],
    len: usize,
    piece: usize,
    calls_left: Option<u64>,
    has_failed: bool,
}

// Contracts see the stored bytes, and what the sink will do next.
impl<const N: usize> Model for PieceSink<N> {
    ghost Value = { State };

    ghost view = { λ s. record {
      taken = take s.len s.bytes;
      piece = s.piece;
      calls_left = s.calls_left;
      is_failed = s.has_failed;
    } };

    ghost invariant = { λ s. (s.len ≤ N) × (1 ≤ s.piece) };
}

impl<const N: usize> PieceSink<N> {
    /// An empty sink. Call number `fail_at` of `put`, counted from 1, fails, and so do all later ones; 0 means 1.
    pub fn new(piece: usize, fail_at: Option<u64>) -> Self
        requires { 1 ≤ piece }
        ensures { result ≡ record {
          taken = [];
          piece = piece;
          calls_left = one_fewer fail_at;
          is_failed = false;
        } }
    {
        PieceSink {
            bytes: [0; N],
            len: 0,
            piece,
            calls_left: fail_at.map(|call| call.saturating_sub(1)),
            has_failed: false,
        }
    }

    /// The stored bytes.
    pub fn taken(&self) -> &[u8]
        ensures { result.now ≡ self.now.taken }
    {
        &self.bytes[..self.len]
    }
}

impl<const N: usize> ByteSink for PieceSink<N> {
    ghost taken = { λ sink. Some sink.taken };

    ghost is_failed = { λ sink. sink.is_failed };

    fn put(&mut self, piece: &[u8]) -> Result<usize, SinkFailed>
        ensures takes { Takes (λ (s : State). Some s.taken) (λ s. s.is_failed) self.old self.new
            piece.now result }
        ensures fails { IsErr result ↔ Fails N self.old piece.now }
        ensures count { IfOk result (λ n. n ≡ share N self.old piece.now) }
        ensures ok { IfOk result (λ n. self.new ≡ after_taking self.old (take n piece.now)) }
        ensures err { OnErr result (self.new ≡ after_failing self.old) }
    {
        let room = N - self.len;
        let is_full = room == 0 && !piece.is_empty();
        if self.has_failed || self.calls_left == Some(0) || is_full {
            self.has_failed = true;
            return Err(SinkFailed);
        }
        let count = piece.len().min(self.piece).min(room);
        let bytes = &mut self.bytes[..];
        bytes[self.len..self.len + count].copy_from_slice(&piece[..count]);
        self.len += count;
        self.calls_left = self.calls_left.map(|calls| calls - 1);
        Ok(count)
    }

    fn failed(&self) -> bool {
        self.has_failed
    }
}
