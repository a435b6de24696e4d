//! The answers to lines, if each line is an input of its own.
ghost use Rattle.std.specs.Prelude.{◌≤◌, length, IfOk};
ghost use Rattle.bcs_tool_command_line.specs.Files.{size_limit};
ghost use Rattle.bcs_tool_answers.specs.LineAnswers.{AnswersLine};
ghost use Rattle.bcs_tool_answers.specs.Preparing.{IsAskedBy};

use crate::answer::Answer;
use crate::json_refusals::formed;
use crate::validating::Asked;
use crate::value_answers::answer_values;
use bcs_tool_command_line::Work;
use std::alloc::{AllocError, Global};

/// The answer to a line of the input.
pub fn answer_line(
    alloc: Global,
    work: &Work,
    asked: &Asked,
    line: &[u8],
) -> Result<Answer, AllocError>
    requires asked { IsAskedBy work.now asked.now }
    requires within { length line.now ≤ size_limit }
    ensures { IfOk result (λ a. AnswersLine work.now line.now a.status a.output.items) }
{
    let answer = answer_values(alloc, work, asked, line)?;
    formed(alloc, work.options.json_refusals, answer)
}
