//! A source that repeats one byte.
ghost use Rattle.std.specs.Prelude.{◌≡◌, ◌+◌, ◌-◌, ◌<◌, false, Some, Ok, length, min, IfOk};
ghost use Rattle.std.proofs.Common.{arith};
ghost use Rattle.bcs_io.specs.RepeatSource.{State, rest, allowance_of};
ghost use Rattle.bcs_io.specs.Giving.{Gives};

use crate::source::{ByteSource, SourceFailed};
use std::marker::Model;

/// Returns the same byte 18446744073709551615 times. It never fails.
#[derive(Drop)]
pub struct RepeatSource {
    byte: u8,
    given: u64,
}

// Contracts see the byte, and how many times it has been returned.
impl Model for RepeatSource {
    ghost Value = { State };

    ghost view = { λ s. record { byte = s.byte; given = s.given } };
}

impl RepeatSource {
    /// A source that hasn't returned anything yet.
    pub fn new(byte: u8) -> Self
        ensures { result ≡ record { byte = byte; given = 0 } }
    {
        RepeatSource { byte, given: 0 }
    }

    /// The number of bytes returned so far.
    pub fn given(&self) -> u64
        ensures { result ≡ self.now.given }
    {
        self.given
    }
}

impl ByteSource for RepeatSource {
    ghost content = { λ source. Some (rest source) };

    ghost is_failed = { λ _. false };

    ghost allowance = { allowance_of };

    ghost bounded = { λ source. Prim.omega arith };

    #[tactic(auto, using(crate::proofs::Repeating::replicate_front), unfolding(crate::specs::RepeatSource::rest))]
    fn next(&mut self, buf: &mut [u8]) -> Result<usize, SourceFailed>
        ensures gives { Gives (λ s. Some (rest s)) (λ _. false) allowance_of self.old self.new
            result buf.new }
        ensures count { result ≡ Ok (min (length buf.old) (allowance_of self.old)) }
        ensures ok { IfOk result (λ n. self.new ≡ record self.old { given = self.old.given + n }) }
    {
        let left = u64::MAX - self.given;
        let count = buf.len().min(left as usize);
        buf[..count].fill(self.byte);
        self.given += count as u64;
        Ok(count)
    }

    fn failed(&self) -> bool {
        false
    }
}
