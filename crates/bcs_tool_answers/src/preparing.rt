//! Validates the arguments of a job before its input is read.
ghost use Rattle.std.specs.Prelude.{◌≡◌, ℕ, List, IfOk, false};
ghost use Rattle.bcs_tool_answers.specs.Validating.{command_of, works_on_values};
ghost use Rattle.bcs_tool_answers.specs.Places.{IsAnswer};
ghost use Rattle.bcs_tool_answers.specs.Preparing.{IsPrepared};

use crate::answer::{Answer, counted};
use crate::examples::answer_example;
use crate::from_move::answer_from_move;
use crate::growing::answer_growth;
use crate::refusing::refused_words;
use crate::schemas::answer_schema;
use crate::showing::answer_show;
use crate::validating::{Asked, validate_asked, validate_check};
use crate::value_command::{ValueCommand, value_command_of};
use bcs_tool_command_line::{Command, Work};
use std::alloc::{AllocError, Global};

/// A job whose arguments have been validated.
#[derive(Drop)]
pub enum Prepared {
    /// Its parsed request: its input is read next.
    Asked(Asked),
    /// Its answer, whatever the input, since it has none or its arguments are refused.
    Answered(Answer),
}

/// Validates the arguments of the job, before any input is read.
pub fn prepare(alloc: Global, work: &Work) -> Result<Prepared, AllocError>
    ensures { IfOk result (λ prepared. IsPrepared work.now prepared) }
{
    match value_command_of(work.command) {
        Some(command) => prepare_asked(alloc, work, command),
        None => Ok(Prepared::Answered(answer_alone(alloc, work)?)),
    }
}

// The answer of a command without an input.
fn answer_alone(alloc: Global, work: &Work) -> Result<Answer, AllocError>
    requires { works_on_values work.now.command ≡ false }
    ensures { IfOk result (λ a. (bytes : List ℕ) → IsAnswer work.now bytes a) }
{
    match work.command {
        Command::Check => answer_check(alloc, work),
        Command::Grows => answer_growth(alloc, work),
        Command::Show => answer_show(alloc, work),
        Command::Example => answer_example(alloc, work),
        Command::Schema => answer_schema(alloc, work),
        Command::FromMove => answer_from_move(alloc, work),
        _ => unreachable!(),
    }
}

// The number of containers in the registry, whatever the input.
fn answer_check(alloc: Global, work: &Work) -> Result<Answer, AllocError>
    requires { work.now.command ≡ Command.Check }
    ensures { IfOk result (λ a. (bytes : List ℕ) → IsAnswer work.now bytes a) }
{
    match validate_check(alloc, work) {
        Ok(count) => counted(alloc, count),
        Err(fault) => refused_words(alloc, work, fault),
    }
}

// The parsed request of a job that works on values; or the answer, whatever the input, if its arguments are refused.
fn prepare_asked(alloc: Global, work: &Work, command: ValueCommand) -> Result<Prepared, AllocError>
    requires { work.now.command ≡ command_of command }
    ensures { IfOk result (λ prepared. IsPrepared work.now prepared) }
{
    match validate_asked(alloc, work, command) {
        Ok(asked) => Ok(Prepared::Asked(asked)),
        Err(fault) => Ok(Prepared::Answered(refused_words(alloc, work, fault)?)),
    }
}
