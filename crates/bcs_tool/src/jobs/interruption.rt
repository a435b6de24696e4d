//! Where a run was interrupted.

use crate::jobs::run_fault::RunFault;
use bcs_io::TakeFault;
use std::alloc::AllocError;
use thiserror::Error;

/// Why a run was interrupted, and where.
#[derive(Clone, Copy, Debug, Drop, Error)]
#[error("{fault}")]
pub struct Interruption {
    pub fault: RunFault,
    /// The number of lines that were answered before; 0 if the input isn't read by lines.
    pub answered: u64,
}

impl From<TakeFault> for Interruption {
    ghost use Rattle.std.specs.Prelude.{◌≡◌};
    ghost use Rattle.bcs_tool.specs.declared.jobs.run_fault.RunFault.TheVariants.{Take};

    ghost from_gives = { λ fault result. result ≡ record { fault = Take fault; answered = 0 } };

    fn from(fault: TakeFault) -> Interruption {
        Interruption {
            fault: RunFault::Take(fault),
            answered: 0,
        }
    }
}

impl From<AllocError> for Interruption {
    ghost use Rattle.std.specs.Prelude.{◌≡◌};
    ghost use Rattle.bcs_tool.specs.declared.jobs.run_fault.RunFault.TheVariants.{Take};
    ghost use Rattle.bcs_io.specs.declared.taking.TakeFault.TheVariants.{OutOfMemory};

    ghost from_gives = { λ _ result. result ≡ record { fault = Take OutOfMemory; answered = 0 } };

    fn from(_: AllocError) -> Interruption {
        Interruption::from(TakeFault::OutOfMemory)
    }
}
