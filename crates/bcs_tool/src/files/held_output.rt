//! Output that is held in memory until it is known where it goes.
ghost use Rattle.std.specs.Prelude.{◌≡◌, Some, [], false, true};
ghost use Rattle.bcs_io.specs.Taking.{Takes};

use bcs_io::{ByteSink, SinkFailed};
use std::alloc::{AllocError, Global};

/// A sink that holds all bytes. It fails if memory runs out.
#[derive(Drop)]
pub struct HeldOutput {
    bytes: Vec<u8>,
    has_failed: bool,
}

impl HeldOutput {
    ghost use Rattle.bcs_tool.specs.HeldOutput.{held_bytes, ran_out};

    /// It holds nothing yet.
    pub(crate) fn new(alloc: Global) -> HeldOutput
        ensures empty { held_bytes result ≡ [] }
        ensures fresh { ran_out result ≡ false }
    {
        HeldOutput {
            bytes: Vec::new(alloc),
            has_failed: false,
        }
    }

    /// The bytes that it holds.
    pub(crate) fn bytes(&self) -> &[u8]
        ensures { result.now ≡ held_bytes self.now }
    {
        self.bytes.as_slice()
    }
}

impl ByteSink for HeldOutput {
    ghost use Rattle.bcs_tool.specs.HeldOutput.{held_bytes, ran_out};

    ghost taken = { λ sink. Some (held_bytes sink) };

    ghost is_failed = { ran_out };

    fn put(&mut self, piece: &[u8]) -> Result<usize, SinkFailed>
        ensures takes { Takes (λ sink. Some (held_bytes sink)) ran_out self.old self.new piece.now result }
    {
        if self.has_failed {
            return Err(SinkFailed);
        }
        match self.bytes.extend_from_slice(piece) {
            Ok(()) => Ok(piece.len()),
            Err(AllocError) => {
                self.has_failed = true;
                Err(SinkFailed)
            }
        }
    }

    fn failed(&self) -> bool {
        self.has_failed
    }
}
