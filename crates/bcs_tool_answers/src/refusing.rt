//! A job whose own arguments are refused.
ghost use Rattle.std.specs.Prelude.{◌≢◌, ℕ, List, IfOk};
ghost use Rattle.bcs_registry_model.specs.declared.fault.RegistryFault.TheVariants.{OutOfMemory};
ghost use Rattle.bcs_tool_answers.specs.Validating.{RefusesEarly};
ghost use Rattle.bcs_tool_answers.specs.Places.{IsAnswer};

use crate::answer::{Answer, placed};
use crate::job_fault::JobFault;
use crate::word_places::place_of_words;
use bcs_tool_command_line::Work;
use std::alloc::{AllocError, Global};

/// The answer to a job whose arguments are refused with this fault. A failed allocation is not a refusal.
pub fn refused_words(alloc: Global, work: &Work, fault: JobFault) -> Result<Answer, AllocError>
    requires refused { fault ≢ JobFault.Registry OutOfMemory → RefusesEarly work.now fault }
    ensures refuses { IfOk result (λ _. RefusesEarly work.now fault) }
    ensures answers { IfOk result (λ a. (bytes : List ℕ) → IsAnswer work.now bytes a) }
{
    let place = place_of_words(alloc, work, fault);
    Ok(placed(fault.answer(alloc)?, place))
}
