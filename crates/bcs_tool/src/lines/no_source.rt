//! A source that gives nothing.
ghost use Rattle.std.specs.Prelude.{true, None};
ghost use Rattle.std.proofs.Common.{arith};

use bcs_io::{ByteSource, SourceFailed};

/// Every call fails. A reader of it gets only what it has already read from another source.
#[derive(Drop)]
pub struct NoSource;

impl ByteSource for NoSource {
    ghost content = { λ _. None };

    ghost is_failed = { λ _. true };

    ghost allowance = { λ _. 0 };

    ghost bounded = { λ source. Prim.omega arith };

    fn next(&mut self, _: &mut [u8]) -> Result<usize, SourceFailed> {
        Err(SourceFailed)
    }

    fn failed(&self) -> bool {
        true
    }
}
