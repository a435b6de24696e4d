//! Sinks: where bytes are written.
ghost use Rattle.std.specs.Prelude.{◌≡◌, ℕ, Bool, List, Option};
ghost use Rattle.bcs_io.specs.Taking.{Takes};

/// The sink failed, and accepted no bytes in this call.
#[derive(Clone, Copy, Debug, PartialEq, Eq)]
pub struct SinkFailed;

/// A sink of bytes.
pub trait ByteSink {
    /// The bytes that it has accepted so far, if known.
    ghost taken: { Self → Option (List ℕ) };

    /// Whether a call has failed.
    ghost is_failed: { Self → Bool };

    /// Accepts bytes from the start of `piece` and returns how many: at least one, unless `piece` is empty. A call that
    /// fails accepts nothing, and every later call fails too.
    fn put(&mut self, piece: &[u8]) -> Result<usize, SinkFailed>
        ensures { Takes taken is_failed self.old self.new piece.now result };

    /// Whether a call has failed.
    fn failed(&self) -> bool
        ensures { result ≡ is_failed self.now };
}
