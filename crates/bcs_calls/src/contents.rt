//! The contents of parts, for C.
ghost use Rattle.std.specs.Prelude.{◌≡◌, ℕ, IfErr, IfOk, map};
ghost use Rattle.bcs_value_model.specs.Tree.{Tree};
ghost use Rattle.bcs_decode_spec.specs.Accepting.{Accepts};
ghost use Rattle.bcs_decode_parts.specs.PathSteps.{all_spelled};
ghost use Rattle.bcs_decode_parts.specs.Steps.{step_of};
ghost use Rattle.bcs_calls.specs.Asking.{On};
ghost use Rattle.bcs_calls.specs.Contents.{AnswersContent, AnswersContentAt, MayLead};

use crate::answer::Answer;
use crate::asked::Asked;
use crate::fault::Fault;
use crate::named_parts::led_path;
use crate::parts::read_steps;
use crate::status::Status;
use bcs_decode::{Step, scan};
use bcs_decode_parts::{PathStep, steps_of};
use bcs_part_names::{NoContent, content_of_scanned};
use std::alloc::{AllocError, Global};

/// The number of the notation in which a name is a path.
const STEPS: u32 = 0;

/// Finds the content of the part that the name leads to, within the value at the start of the input.
pub(crate) fn content_place(
    alloc: Global,
    asked: &Asked,
    notation: u32,
    name: &[u8],
    bytes: &[u8],
) -> Answer
    ensures { On asked.now (λ r l s. AnswersContent r l s bytes.now notation name.now result) }
{
    let path = match valid_path(alloc, asked, notation, name, bytes) {
        Ok(path) => path,
        Err(answer) => return answer,
    };
    match steps_of(alloc, path.as_slice()) {
        Ok(steps) => scanned_content(asked, bytes, steps.as_slice()),
        Err(AllocError) => Answer::plain(Status::Memory),
    }
}

/// The steps of the name, if the input starts with a value.
fn valid_path(
    alloc: Global,
    asked: &Asked,
    notation: u32,
    name: &[u8],
    bytes: &[u8],
) -> Result<Vec<PathStep>, Answer>
    ensures leads { IfOk result (λ path. MayLead notation name.now (all_spelled path.items)) }
    ensures valid { IfOk result (λ path. On asked.now (λ r l s. (n : ℕ) × (c : Tree) × Accepts r l s bytes.now n c)) }
    ensures err { IfErr result (λ a. On asked.now (λ r l s. AnswersContent r l s bytes.now notation name.now a)) }
{
    if notation == STEPS {
        spelled_path(alloc, asked, name, bytes)
    } else {
        led_path(alloc, asked, notation, name, bytes)
    }
}

/// The steps of a path, if the input starts with a value.
fn spelled_path(
    alloc: Global,
    asked: &Asked,
    path: &[u8],
    bytes: &[u8],
) -> Result<Vec<PathStep>, Answer>
    ensures leads { IfOk result (λ steps. MayLead 0 path.now (all_spelled steps.items)) }
    ensures valid { IfOk result (λ steps. On asked.now (λ r l s. (n : ℕ) × (c : Tree) × Accepts r l s bytes.now n c)) }
    ensures err { IfErr result (λ a. On asked.now (λ r l s. AnswersContent r l s bytes.now 0 path.now a)) }
{
    let spelled = match read_steps(alloc, path) {
        Ok(spelled) => spelled,
        Err(answer) => return Err(answer),
    };
    match scan(asked.registry, asked.format, &asked.limits, bytes) {
        Ok(_) => Ok(spelled),
        Err(stop) => Err(Answer::stopped(stop)),
    }
}

/// Finds the content of the part that the steps lead to, within the value at the start of the input, which has been
/// scanned.
fn scanned_content(asked: &Asked, bytes: &[u8], steps: &[Step]) -> Answer
    requires { On asked.now (λ r l s. (n : ℕ) × (c : Tree) × Accepts r l s bytes.now n c) }
    ensures { On asked.now (λ r l s. AnswersContentAt r l s bytes.now (map step_of steps.now) result) }
{
    match content_of_scanned(asked.registry, asked.format, &asked.limits, bytes, steps) {
        Ok(Some(found)) => Answer::placed(found.place, found.bytes.len()),
        Ok(None) => Answer::plain(Status::No),
        Err(NoContent) => Answer::refusal(Status::Refused, Fault::NoContent),
    }
}
