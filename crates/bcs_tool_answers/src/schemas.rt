//! The JSON Schema for the texts of a format.
ghost use Rattle.std.specs.Prelude.{◌≡◌, ℕ, List, IfOk};
ghost use Rattle.bcs_registry_model.specs.View.{shape_of};
ghost use Rattle.bcs_tool_answers.specs.Answers.{AsksOfFormat};
ghost use Rattle.bcs_tool_answers.specs.Places.{IsAnswer};

use crate::answer::{Answer, shown};
use crate::refusing::refused_words;
use crate::validating::validate_formatted;
use bcs_display_schema::schema_text;
use bcs_registry::{Format, Registry};
use bcs_tool_command_line::{Command, Work};
use std::alloc::{AllocError, Global};

/// The schema of the format, whatever the input.
pub fn answer_schema(alloc: Global, work: &Work) -> Result<Answer, AllocError>
    requires { work.now.command ≡ Command.Schema }
    ensures { IfOk result (λ a. (bytes : List ℕ) → IsAnswer work.now bytes a) }
{
    match validate_formatted(alloc, work) {
        Ok((registry, format)) => schema_answer(alloc, work, &registry, &format),
        Err(fault) => refused_words(alloc, work, fault),
    }
}

fn schema_answer(
    alloc: Global,
    work: &Work,
    registry: &Registry,
    format: &Format,
) -> Result<Answer, AllocError>
    requires asks { AsksOfFormat work.now Command.Schema registry.now (shape_of format.now) }
    ensures { IfOk result (λ a. (bytes : List ℕ) → IsAnswer work.now bytes a) }
{
    let text = schema_text(alloc, registry, format)?;
    shown(alloc, text)
}
