//! Why a PATH argument is rejected.
ghost use Rattle.std.specs.Prelude.{◌≡◌};

use std::alloc::AllocFailed;
use thiserror::Error;

/// Why a PATH argument is rejected. `Display` prints the variant's name.
#[derive(Clone, Copy, Debug, Drop, PartialEq, Eq, Error)]
pub enum PathFault {
    /// The word isn't a path.
    #[error("BadPath")]
    BadPath,
    /// Memory ran out.
    #[error("OutOfMemory")]
    OutOfMemory,
}

impl<T: Drop> From<AllocFailed<T>> for PathFault {
    ghost use Rattle.bcs_decode_parts.specs.declared.path_fault.PathFault.TheVariants.{OutOfMemory};

    ghost from_gives = { λ _ fault. fault ≡ OutOfMemory };

    fn from(_: AllocFailed<T>) -> PathFault {
        PathFault::OutOfMemory
    }
}
