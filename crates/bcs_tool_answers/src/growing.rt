//! Whether a registry has grown into another, after the list of all differences if that is requested.
ghost use Rattle.std.specs.Prelude.{◌≡◌, ◌++◌, ℕ, List, IfOk};
ghost use Rattle.bcs_tool_answers.specs.Answers.{Lists};
ghost use Rattle.bcs_tool_answers.specs.Validating.{IsRegistry};
ghost use Rattle.bcs_tool_answers.specs.Places.{IsAnswer};
ghost use Rattle.bcs_tool_answers.specs.Preparing.{IsVerdict};

use crate::answer::{Answer, placed, refused, told};
use crate::refusing::refused_words;
use crate::validating::validate_pair;
use crate::word_places::place_of_difference;
use bcs_display_registry::{difference_lines, differences};
use bcs_registry::Registry;
use bcs_tool_command_line::{Command, Work};
use std::alloc::{AllocError, Global};

/// Whether the older registry has grown into the newer, whatever the input.
pub fn answer_growth(alloc: Global, work: &Work) -> Result<Answer, AllocError>
    requires { work.now.command ≡ Command.Grows }
    ensures { IfOk result (λ a. (bytes : List ℕ) → IsAnswer work.now bytes a) }
{
    match validate_pair(alloc, work) {
        Ok((older, newer)) => {
            let answer = verdict(alloc, work, &older, &newer)?;
            listed(alloc, work, &older, &newer, answer)
        }
        Err(fault) => refused_words(alloc, work, fault),
    }
}

// The verdict, without the list.
fn verdict(
    alloc: Global,
    work: &Work,
    older: &Registry,
    newer: &Registry,
) -> Result<Answer, AllocError>
    requires command { work.now.command ≡ Command.Grows }
    requires older { IsRegistry work.now.registry.items older.now }
    requires newer { IsRegistry work.now.second.items newer.now }
    ensures { IfOk result (λ a. IsVerdict work.now a) }
{
    match older.grows(newer) {
        Ok(()) => told(alloc, 0, "grows"),
        Err(fault) => {
            let place = place_of_difference(alloc, work, older, newer);
            Ok(placed(refused(alloc, fault.name())?, place))
        }
    }
}

// The answer, after the list of all differences if that is requested.
fn listed(
    alloc: Global,
    work: &Work,
    older: &Registry,
    newer: &Registry,
    answer: Answer,
) -> Result<Answer, AllocError>
    ensures { IfOk result (λ a. (a.status ≡ answer.status) × (a.place.items ≡ answer.place.items)
        × (list : List ℕ) × Lists work.now.options.list list × (a.output.items ≡ list ++ answer.output.items)) }
{
    if !work.options.list {
        return Ok(answer);
    }
    let found = differences(alloc, older.containers(), newer.containers())?;
    let mut output = difference_lines(alloc, found.as_slice())?;
    output.extend_from_slice(answer.output.as_slice())?;
    Ok(Answer { output, ..answer })
}
