//! Why bytes can't be printed as JSON.

use bcs_decode::Stop;
use std::alloc::AllocError;
use thiserror::Error;

/// Why bytes have no JSON document. The message is the name of the variant.
#[derive(Clone, Copy, Debug, Drop, PartialEq, Eq, Error)]
pub enum FromFault {
    /// The bytes aren't the encoding of a value.
    #[error("Stop")]
    Stop(Stop),
    /// The arrays and objects of the document would nest more than 100 deep.
    #[error("TooNested")]
    TooNested,
    /// An allocation failed.
    #[error("OutOfMemory")]
    OutOfMemory,
}

impl From<AllocError> for FromFault {
    ghost use Rattle.std.specs.Prelude.{◌≡◌};
    ghost use Rattle.bcs_json.specs.declared.from_fault.FromFault.TheVariants.{OutOfMemory};

    ghost from_gives = { λ _ e. e ≡ OutOfMemory };

    fn from(_: AllocError) -> Self {
        FromFault::OutOfMemory
    }
}
