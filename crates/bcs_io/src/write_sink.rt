//! A writer as a sink.
ghost use Rattle.std.specs.Prelude.{◌≡◌, ◌<◌, true, false};
ghost use Rattle.bcs_io.specs.Taking.{Takes};

use crate::sink::{ByteSink, SinkFailed};
use std::io::Write;

/// Writes to a writer. A write that returns an error, or that accepts no byte of a non-empty piece, is a failure, and
/// nothing is written after it.
#[derive(Drop)]
pub struct WriteSink<W> {
    writer: W,
    has_failed: bool,
}

impl<W: Write> WriteSink<W> {
    ghost use Rattle.bcs_io.specs.WriteSink.{writer_of, failed};

    pub fn new(writer: W) -> Self
        ensures writer { writer_of result ≡ writer }
        ensures fresh { failed result ≡ false }
    {
        WriteSink {
            writer,
            has_failed: false,
        }
    }
}

// It has accepted the bytes that the writer contains.
impl<W: Write> ByteSink for WriteSink<W> {
    ghost use Rattle.bcs_io.specs.WriteSink.{writer_of, failed};

    ghost taken = { λ sink. W.contents (writer_of sink) };

    ghost is_failed = { failed };

    fn put(&mut self, piece: &[u8]) -> Result<usize, SinkFailed>
        ensures takes { Takes (λ sink. W.contents (writer_of sink)) failed self.old self.new
            piece.now result }
        ensures leaves { failed self.old ≡ true → self.new ≡ self.old }
    {
        if self.has_failed {
            return Err(SinkFailed);
        }
        match self.writer.write(piece) {
            Ok(count) if count > 0 || piece.is_empty() => Ok(count),
            _ => {
                self.has_failed = true;
                Err(SinkFailed)
            }
        }
    }

    fn failed(&self) -> bool {
        self.has_failed
    }
}
