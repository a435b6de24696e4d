//! Reads the whole content of a source.
ghost use Rattle.std.specs.Prelude.{◌≡◌, ◌+◌, ◌≤◌, ℕ, List, false, length, vec_len, IfOk, Err};
ghost use Rattle.std.specs.Io.KnownBytes.{IsAtEnd};
ghost use Rattle.bcs_io.specs.Giving.{Gave, GaveThenFailed};
ghost use Rattle.bcs_io.specs.Notes.{take_note};

use crate::source::ByteSource;
use std::alloc::Global;
use thiserror::Error;

/// Why the content of a source wasn't read. The message is the variant's name. The variants are numbered from 1.
#[derive(Clone, Copy, Debug, Drop, PartialEq, Eq, Error)]
pub enum TakeFault {
    /// The source failed.
    #[error("Read")]
    Read = 1,
    /// The content is longer than the limit.
    #[error("TooLarge")]
    TooLarge,
    /// An allocation failed.
    #[error("OutOfMemory")]
    OutOfMemory,
}

impl TakeFault {
    /// The line for standard error.
    pub fn note(self) -> &'static str
        ensures { result.now ≡ take_note self }
    {
        match self {
            TakeFault::Read => "fault: read",
            TakeFault::TooLarge => "fault: too large",
            TakeFault::OutOfMemory => "fault: memory",
        }
    }
}

// The number of bytes requested from the source at a time.
const BLOCK: u64 = 65536;

/// Reads the whole content of a source, at most `limit` bytes. Memory grows only with the bytes that were read, and
/// reading stops one byte after the limit. So it is safe even if the source never ends.
pub fn take_all<S: ByteSource>(
    alloc: Global,
    input: &mut S,
    limit: u64,
) -> Result<Vec<u8>, TakeFault>
    ensures whole { IfOk result (λ v. Gave S.content S.is_failed S.allowance input.old input.new v.items
        × IsAtEnd (S.content input.new) × (S.is_failed input.new ≡ false)) }
    ensures within { IfOk result (λ v. vec_len v ≤ limit) }
    ensures read { result ≡ Err TakeFault.Read → (bytes : List ℕ)
        × GaveThenFailed S.content S.is_failed S.allowance input.old input.new bytes × (length bytes ≤ limit) }
    ensures too_large { result ≡ Err TakeFault.TooLarge → (bytes : List ℕ)
        × Gave S.content S.is_failed S.allowance input.old input.new bytes
        × (length bytes ≡ limit + 1) }
    ensures memory { result ≡ Err TakeFault.OutOfMemory → (bytes : List ℕ)
        × Gave S.content S.is_failed S.allowance input.old input.new bytes × (length bytes ≤ limit)
        × (S.is_failed input.new ≡ false) }
{
    let mut bytes = Vec::new(alloc);
    let mut block = [0; BLOCK as usize];
    loop {
        let left = limit - bytes.len() as u64;
        // Requests one byte more than the limit allows, to detect content that is too large.
        let room = left.min(BLOCK - 1) as usize + 1;
        let Ok(count) = input.next(&mut block[..room]) else {
            return Err(TakeFault::Read);
        };
        if count == 0 {
            return Ok(bytes);
        }
        if left < count as u64 {
            return Err(TakeFault::TooLarge);
        }
        if bytes.extend_from_slice(&block[..count]).is_err() {
            return Err(TakeFault::OutOfMemory);
        }
    }
}
