//! Sources: where bytes are read from.
ghost use Rattle.std.specs.Prelude.{◌≡◌, ℕ, ◌<◌, ◌^◌, Bool, List, Option};
ghost use Rattle.bcs_io.specs.Giving.{Gives};

/// The source failed, and returned no bytes in this call.
#[derive(Clone, Copy, Debug, PartialEq, Eq)]
pub struct SourceFailed;

/// A source of bytes.
pub trait ByteSource {
    /// The remaining bytes, if known.
    ghost content: { Self → Option (List ℕ) };

    /// Whether a call has failed.
    ghost is_failed: { Self → Bool };

    /// The greatest number of bytes that it can still return.
    ghost allowance: { Self → ℕ };

    /// Copies the next bytes to the start of `buf` and returns how many. Returns 0 only at the end of the content or if
    /// `buf` is empty. A call that fails copies nothing, and every later call fails too. The rest of `buf` is
    /// unspecified.
    fn next(&mut self, buf: &mut [u8]) -> Result<usize, SourceFailed>
        ensures { Gives content is_failed allowance self.old self.new result buf.new };

    /// Whether a call has failed.
    fn failed(&self) -> bool
        ensures { result ≡ is_failed self.now };

    /// No source returns 18446744073709551616 bytes, so reading one to its end terminates.
    ghost bounded: { (source : Self) → allowance source < 2 ^ 64 };
}
