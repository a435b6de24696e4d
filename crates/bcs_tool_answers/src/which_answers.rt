//! The answers of `which`: the containers that bytes are exactly one value of.
ghost use Rattle.std.specs.Prelude.{◌≡◌, ◌⊎◌, [], IfOk};
ghost use Rattle.bcs_tool_answers.specs.Places.{AnswersBytes};
ghost use Rattle.bcs_tool_answers.specs.Preparing.{IsAskedBy};

use crate::answer::{Answer, unplaced};
use crate::validating::Asked;
use bcs_display_candidates::{CandidateForm, candidate_lines, candidates};
use bcs_display_text::style::Form;
use bcs_registry::Registry;
use bcs_tool_command_line::{Command, Work};
use std::alloc::{AllocError, Global};

/// A line for each container that the bytes are exactly one value of. If there is none: `none`, or nothing in JSON.
pub fn answer_which(
    alloc: Global,
    work: &Work,
    asked: &Asked,
    bytes: &[u8],
) -> Result<Answer, AllocError>
    requires command { work.now.command ≡ Command.Which }
    requires asked { IsAskedBy work.now asked.now }
    ensures { IfOk result (λ a. AnswersBytes work.now bytes.now a) }
{
    found_in(alloc, work, &asked.registry, bytes)
}

fn found_in(
    alloc: Global,
    work: &Work,
    registry: &Registry,
    bytes: &[u8],
) -> Result<Answer, AllocError>
    ensures { IfOk result (λ a. ((a.status ≡ 0) ⊎ (a.status ≡ 1)) × (a.place.items ≡ [])) }
{
    let form = form_of(work);
    let found = candidates(alloc, registry, &work.limits, bytes)?;
    let mut lines = candidate_lines(alloc, &found, bytes.len(), form)?;
    if !found.is_empty() {
        return Ok(unplaced(alloc, 0, lines));
    }
    if form != CandidateForm::Json {
        lines.extend_from_slice(b"none\n")?;
    }
    Ok(unplaced(alloc, 1, lines))
}

fn form_of(work: &Work) -> CandidateForm {
    if work.options.display.form == Form::Json {
        CandidateForm::Json
    } else if work.options.list {
        CandidateForm::Grounds
    } else {
        CandidateForm::Name
    }
}
