//! The names of faults, for C.
ghost use Rattle.std.specs.Prelude.{◌≡◌, ◌≢◌};
ghost use Rattle.bcs_calls.specs.Named.{AnswersName};
ghost use Rattle.bcs_calls.specs.Statuses.{status_number};
ghost use Rattle.bcs_calls.specs.declared.status.Status.TheVariants.{Done};

use crate::answer::Answer;
use crate::numbered::fault_numbered;
use crate::output::put;
use crate::status::Status;

/// Writes the name of the fault with this number to the start of the output.
pub(crate) fn told_fault_name(fault: u32, out: &mut [u8]) -> Answer
    ensures answers { AnswersName fault out.old out.new result }
    ensures untouched { result.status ≢ status_number Done → out.new ≡ out.old }
{
    match fault_numbered(fault) {
        Some(fault) => put(fault.name().as_bytes(), out),
        None => Answer::plain(Status::No),
    }
}
