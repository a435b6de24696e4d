//! Why a command line isn't a job.
ghost use Rattle.std.specs.Prelude.{◌≡◌};

use std::alloc::AllocError;
use thiserror::Error;

/// Why the arguments of a command line aren't a job. The message is only the variant's name.
#[derive(Debug, Drop, Error)]
pub enum LineFault {
    /// The arguments aren't a command line of `bcs`. The text for standard error says what is wrong; it is clap's, or in its
    /// form.
    #[error("Usage")]
    Usage(String),
    /// The arguments ask for help, or for the version: clap's text, for standard output.
    #[error("Help")]
    Help(String),
    /// Memory ran out.
    #[error("OutOfMemory")]
    OutOfMemory,
}

impl From<AllocError> for LineFault {
    ghost use Rattle.bcs_tool_command_line.specs.declared.line_fault.LineFault.TheVariants.{OutOfMemory};

    ghost from_gives = { λ _ fault. fault ≡ OutOfMemory };

    fn from(_error: AllocError) -> LineFault {
        LineFault::OutOfMemory
    }
}
