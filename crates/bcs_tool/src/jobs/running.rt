//! A job, its input and its output.
ghost use Rattle.std.specs.Prelude.{◌≡◌};
ghost use Rattle.bcs_tool.specs.Running.{Ends, IsOutcomeOf, Runs};
ghost use Rattle.bcs_tool_answers.specs.Validating.{ReadsInput};
ghost use Rattle.bcs_tool_command_line.specs.FaultPlaces.{origin_text};

use crate::jobs::interruption::Interruption;
use crate::jobs::places::place_of_interruption;
use crate::jobs::put_answer::put_answer;
use crate::jobs::scanning::answer_scan;
use crate::lines::running::answer_lines;
use bcs_io::{ByteSink, ByteSource, take_all};
use bcs_tool_answers::{Prepared, answer_values, is_unlimited, prepare};
use bcs_tool_command_line::limits::SIZE_LIMIT;
use bcs_tool_command_line::{Origin, Outcome, Work};
use std::alloc::Global;

/// Writes the answer to a job and its input; or, with `--lines`, the answer to each line of it. An answer is complete before
/// its first byte is written. The answers to all lines that were read are written before more is read. The input is read only
/// if the job has one and its arguments are accepted.
pub fn run<S: ByteSource, K: ByteSink>(
    alloc: Global,
    work: &Work,
    input: &mut S,
    out: &mut K,
) -> Outcome
    ensures { Runs S.content S.is_failed S.allowance K.taken K.is_failed work.now (origin_text Origin.StandardInput)
        input.old input.new out.old out.new result }
{
    run_from(alloc, work, Origin::StandardInput, input, out)
}

/// The same for an input that is this file or standard input, with the line for standard error if the job is refused or
/// interrupted.
pub fn run_from<S: ByteSource, K: ByteSink>(
    alloc: Global,
    work: &Work,
    origin: Origin<'_>,
    input: &mut S,
    out: &mut K,
) -> Outcome
    ensures { Runs S.content S.is_failed S.allowance K.taken K.is_failed work.now (origin_text origin.entry)
        input.old input.new out.old out.new result }
{
    let ended = validate_and_answer(alloc, work, input, out);
    outcome_of(alloc, work, ended, origin)
}

/// The outcome of a run on an input of this origin: its own, or where it was interrupted.
pub(crate) fn outcome_of(
    alloc: Global,
    work: &Work,
    ended: Result<Outcome, Interruption>,
    origin: Origin<'_>,
) -> Outcome
    ensures { IsOutcomeOf work.now (origin_text origin.entry) ended result }
{
    match ended {
        Ok(outcome) => outcome,
        Err(interruption) => failed(
            interruption.fault.note(),
            place_of_interruption(alloc, work, interruption, origin),
        ),
    }
}

/// The outcome of a job without an answer.
pub fn failed(note: &'static str, place: Vec<u8>) -> Outcome
    ensures status { result.status ≡ 4 }
    ensures note { result.note.now ≡ note.now }
    ensures place { result.place.items ≡ place.items }
{
    Outcome {
        status: 4,
        note,
        place,
    }
}

/// Validates the arguments of the job, and then answers its input, or each line of it.
pub(crate) fn validate_and_answer<S: ByteSource, K: ByteSink>(
    alloc: Global,
    work: &Work,
    input: &mut S,
    out: &mut K,
) -> Result<Outcome, Interruption>
    ensures ends { Ends S.content S.is_failed S.allowance K.taken K.is_failed work.now
        input.old input.new out.old out.new result }
    ensures untouched { ¬ ReadsInput work.now → input.new ≡ input.old }
{
    match prepare(alloc, work)? {
        Prepared::Answered(answer) => put_answer(answer, out),
        Prepared::Asked(asked) => {
            if work.options.lines {
                answer_lines(alloc, work, &asked, input, out)
            } else if is_unlimited(work) {
                answer_scan(alloc, work, &asked, input, out)
            } else {
                let bytes = take_all(alloc, input, SIZE_LIMIT)?;
                let whole = answer_values(alloc, work, &asked, bytes.as_slice())?;
                put_answer(whole, out)
            }
        }
    }
}
