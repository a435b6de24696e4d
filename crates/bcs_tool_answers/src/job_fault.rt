//! Why a job is refused because of its arguments alone.
ghost use Rattle.std.specs.Prelude.{◌≡◌, ◌≢◌, IfOk};
ghost use Rattle.bcs_registry_model.specs.declared.fault.RegistryFault.TheVariants.{OutOfMemory};
ghost use Rattle.bcs_tool_answers.specs.Answers.{refusal_line};
ghost use Rattle.bcs_tool_answers.specs.Validating.{job_fault_name};
ghost use Rattle.bcs_tool_answers.specs.Places.{PrintsWithoutPlace};

use crate::answer::{Answer, refused};
use bcs_decode_parts::PathFault;
use bcs_registry::{GrowthFault, RegistryFault};
use std::alloc::{AllocError, Global};
use thiserror::Error;

/// Why a job is refused before its input is read. A failed allocation is a `Registry` fault, wherever it happened.
#[derive(Clone, Copy, Debug, Drop, PartialEq, Eq, Error)]
#[error("{}", self.name())]
pub enum JobFault {
    /// A registry's text, FORMAT or NAME is refused.
    Registry(RegistryFault),
    /// The newer registry doesn't keep everything in the older one.
    Growth(GrowthFault),
    /// PATH is invalid.
    BadPath,
}

impl JobFault {
    /// The answer to a refused job. A failed allocation is not a refusal.
    pub fn answer(self, alloc: Global) -> Result<Answer, AllocError>
        ensures { IfOk result (λ a. (self ≢ JobFault.Registry OutOfMemory)
            × PrintsWithoutPlace a 2 (refusal_line (job_fault_name self))) }
    {
        match self {
            JobFault::Registry(RegistryFault::OutOfMemory) => Err(AllocError),
            _ => refused(alloc, self.name()),
        }
    }

    /// The fault's name, as it is printed.
    pub fn name(self) -> &'static str
        ensures { result.now ≡ job_fault_name self }
    {
        match self {
            JobFault::Registry(fault) => fault.name(),
            JobFault::Growth(fault) => fault.name(),
            JobFault::BadPath => "BadPath",
        }
    }
}

impl From<RegistryFault> for JobFault {
    ghost use Rattle.std.specs.Prelude.{◌≡◌};
    ghost use Rattle.bcs_tool_answers.specs.declared.job_fault.JobFault.TheVariants.{Registry};

    ghost from_gives = { λ fault result. result ≡ Registry fault };

    fn from(fault: RegistryFault) -> JobFault {
        JobFault::Registry(fault)
    }
}

impl From<PathFault> for JobFault {
    ghost use Rattle.bcs_tool_answers.specs.Validating.{path_job_fault};

    ghost from_gives = { λ fault result. result ≡ path_job_fault fault };

    fn from(fault: PathFault) -> JobFault {
        match fault {
            PathFault::BadPath => JobFault::BadPath,
            PathFault::OutOfMemory => JobFault::Registry(RegistryFault::OutOfMemory),
        }
    }
}
