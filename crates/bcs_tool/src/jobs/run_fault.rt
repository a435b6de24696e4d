//! Why a run is interrupted.
ghost use Rattle.std.specs.Prelude.{◌≡◌};
ghost use Rattle.bcs_tool.specs.Running.{fault_note, of_next};

use bcs_io::{NextFault, TakeFault};
use thiserror::Error;

/// Why a run hasn't written all of its answers. The message is only the fault's name.
#[derive(Clone, Copy, Debug, Drop, Error)]
pub enum RunFault {
    /// The input wasn't read, or memory ran out.
    #[error(transparent)]
    Take(TakeFault),
    /// The output failed.
    #[error("Write")]
    Write,
}

impl RunFault {
    /// Why a line was not read.
    pub fn of_next(fault: NextFault) -> RunFault
        ensures { result ≡ of_next fault }
    {
        RunFault::Take(match fault {
            NextFault::Read => TakeFault::Read,
            NextFault::TooLong => TakeFault::TooLarge,
            NextFault::OutOfMemory => TakeFault::OutOfMemory,
        })
    }

    /// The line for standard error.
    pub fn note(self) -> &'static str
        ensures { result.now ≡ fault_note self }
    {
        match self {
            RunFault::Take(fault) => fault.note(),
            RunFault::Write => "fault: write",
        }
    }
}
