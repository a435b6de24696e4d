//! Writes one answer.
ghost use Rattle.bcs_tool.specs.Running.{PutsAnswer};

use crate::jobs::interruption::Interruption;
use crate::jobs::run_fault::RunFault;
use bcs_io::{ByteSink, put_all};
use bcs_tool_answers::Answer;
use bcs_tool_command_line::Outcome;

/// Writes an answer, and returns its status and its place.
pub fn put_answer<K: ByteSink>(answer: Answer, out: &mut K) -> Result<Outcome, Interruption>
    ensures { PutsAnswer K.taken K.is_failed answer out.old out.new result }
{
    match put_all(answer.output.as_slice(), out) {
        Ok(()) => Ok(Outcome {
            status: answer.status,
            note: "",
            place: answer.place,
        }),
        Err(_) => Err(Interruption {
            fault: RunFault::Write,
            answered: 0,
        }),
    }
}
