//! The answers to the input of a job that works on values.
ghost use Rattle.std.specs.Prelude.{◌≡◌, ◌≤◌, length, IfOk};
ghost use Rattle.bcs_tool_command_line.specs.Files.{size_limit};
ghost use Rattle.bcs_tool_answers.specs.Places.{IsAnswer};
ghost use Rattle.bcs_tool_answers.specs.Preparing.{IsAskedBy};

use crate::answer::{Answer, encoded, placed, refused_text, shown};
use crate::bytes_answers::answer_given;
use crate::differing::answer_diff;
use crate::pair_answers::answer_pair;
use crate::text_places::{place_of_pair, place_of_refusal};
use crate::validating::Asked;
use crate::value_command::ValueCommand;
use bcs_json::{normalise_or_refusal, to_bcs_or_refusal};
use bcs_tool_command_line::{Command, Work};
use std::alloc::{AllocError, Global};

/// The answer to the input of a job with this parsed request.
pub fn answer_values(
    alloc: Global,
    work: &Work,
    asked: &Asked,
    input: &[u8],
) -> Result<Answer, AllocError>
    requires asked { IsAskedBy work.now asked.now }
    requires within { length input.now ≤ size_limit }
    ensures { IfOk result (λ a. IsAnswer work.now input.now a) }
{
    match asked.command {
        ValueCommand::Encode => answer_encode(alloc, work, asked, input),
        ValueCommand::Normalise => answer_normalise(alloc, work, asked, input),
        ValueCommand::Same => answer_same(alloc, work, asked, input),
        ValueCommand::Diff => answer_diff(alloc, work, asked, input),
        ValueCommand::Bytes(command) => answer_given(alloc, work, asked, command, input),
    }
}

// The bytes of the text's value.
fn answer_encode(
    alloc: Global,
    work: &Work,
    asked: &Asked,
    text: &[u8],
) -> Result<Answer, AllocError>
    requires command { work.now.command ≡ Command.Encode }
    requires asked { IsAskedBy work.now asked.now }
    requires within { length text.now ≤ size_limit }
    ensures { IfOk result (λ a. IsAnswer work.now text.now a) }
{
    match to_bcs_or_refusal(alloc, &asked.registry, &asked.format, &work.limits, text) {
        Ok(bytes) => encoded(alloc, bytes, work.coding()),
        Err(refusal) => {
            let place = place_of_refusal(alloc, work, asked, text, &refusal);
            Ok(placed(refused_text(alloc, refusal.fault)?, place))
        }
    }
}

// The normal text of the text's value.
fn answer_normalise(
    alloc: Global,
    work: &Work,
    asked: &Asked,
    text: &[u8],
) -> Result<Answer, AllocError>
    requires command { work.now.command ≡ Command.Normalise }
    requires asked { IsAskedBy work.now asked.now }
    requires within { length text.now ≤ size_limit }
    ensures { IfOk result (λ a. IsAnswer work.now text.now a) }
{
    match normalise_or_refusal(alloc, &asked.registry, &asked.format, &work.limits, text) {
        Ok(normal) => shown(alloc, normal),
        Err(refusal) => {
            let place = place_of_refusal(alloc, work, asked, text, &refusal);
            Ok(placed(refused_text(alloc, refusal.fault)?, place))
        }
    }
}

// Whether the job's text and this one have the same value.
fn answer_same(alloc: Global, work: &Work, asked: &Asked, text: &[u8]) -> Result<Answer, AllocError>
    requires command { work.now.command ≡ Command.Same }
    requires asked { IsAskedBy work.now asked.now }
    requires within { length text.now ≤ size_limit }
    ensures { IfOk result (λ a. IsAnswer work.now text.now a) }
{
    let answer = answer_pair(alloc, work, asked, work.second.as_slice(), text)?;
    if answer.status == 2 {
        let place = place_of_pair(alloc, work, asked, text);
        Ok(placed(answer, place))
    } else {
        Ok(answer)
    }
}
