//! Parts of values, for C.
ghost use Rattle.std.specs.Prelude.{◌≡◌, ◌≢◌, ℕ, IfErr, IfOk, map};
ghost use Rattle.std.specs.declared.option.Option.TheVariants.{Some};
ghost use Rattle.bcs_registry_model.specs.Container.{of};
ghost use Rattle.bcs_value_model.specs.Tree.{Tree};
ghost use Rattle.bcs_decode_spec.specs.Accepting.{Accepts};
ghost use Rattle.bcs_decode_spec.specs.Stopping.{Stops};
ghost use Rattle.bcs_decode_spec.specs.declared.reason.Reason.{Reason};
ghost use Rattle.bcs_decode_parts.specs.Parts.{part_at};
ghost use Rattle.bcs_decode_parts.specs.Steps.{step_of};
ghost use Rattle.bcs_decode_parts.specs.PathSteps.{all_spelled};
ghost use Rattle.bcs_calls.specs.Answers.{plain, stop_at};
ghost use Rattle.bcs_calls.specs.Asking.{IsUnlessMemory, On};
ghost use Rattle.bcs_calls.specs.Parts.{AnswersPart, AnswersSteps, Finds, IsPath, RefusesPath, Steps};
ghost use Rattle.bcs_calls.specs.declared.status.Status.TheVariants.{Memory};

use crate::answer::Answer;
use crate::asked::Asked;
use crate::fault::Fault;
use crate::status::Status;
use bcs_decode::{Step, part};
use bcs_decode_parts::{PathFault, PathStep, read_path, steps_of};
use std::alloc::Global;

/// Finds the part that the path leads to, within the value at the start of the input.
pub(crate) fn path_place(alloc: Global, asked: &Asked, bytes: &[u8], path: &[u8]) -> Answer
    ensures answers { On asked.now (λ r l s. AnswersPart r l s bytes.now path.now result) }
    ensures only { On asked.now (λ r l s. (steps : Steps) (n : ℕ) (c : Tree) → IsPath path.now steps → Accepts r l s bytes.now n c
        → result ≢ plain Memory → Finds r bytes.now (part_at r steps (of s) c) result) }
    ensures stopped { On asked.now (λ r l s. (steps : Steps) (e : Reason) (o : ℕ) → IsPath path.now steps → Stops r l s bytes.now e o
        → IsUnlessMemory result (stop_at e o)) }
{
    let spelled = match read_steps(alloc, path) {
        Ok(spelled) => spelled,
        Err(answer) => return answer,
    };
    match steps_of(alloc, spelled.as_slice()) {
        Ok(steps) => step_place(asked, bytes, steps.as_slice()),
        Err(_) => Answer::plain(Status::Memory),
    }
}

/// The steps of a path, or its refusal.
pub(crate) fn read_steps(alloc: Global, path: &[u8]) -> Result<Vec<PathStep>, Answer>
    ensures ok { IfOk result (λ steps. IsPath path.now (all_spelled steps.items)) }
    ensures err { IfErr result (λ a. RefusesPath path.now a) }
{
    let Ok(word) = str::from_utf8(path) else {
        return Err(Answer::refusal(Status::Path, Fault::BadPath));
    };
    match read_path(alloc, word) {
        Ok(steps) => Ok(steps),
        Err(PathFault::BadPath) => Err(Answer::refusal(Status::Path, Fault::BadPath)),
        Err(PathFault::OutOfMemory) => Err(Answer::plain(Status::Memory)),
    }
}

/// Finds the part that the steps lead to, within the value at the start of the input.
fn step_place(asked: &Asked, bytes: &[u8], steps: &[Step]) -> Answer
    ensures { On asked.now (λ r l s. AnswersSteps r l s bytes.now (map step_of steps.now) result) }
{
    match part(asked.registry, asked.format, &asked.limits, bytes, steps) {
        Ok(Some(found)) => Answer::placed(found.place, found.bytes.len()),
        Ok(None) => Answer::plain(Status::No),
        Err(stop) => Answer::stopped(stop),
    }
}
