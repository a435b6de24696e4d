//! The answer to two texts.
ghost use Rattle.std.specs.Prelude.{◌≡◌, [], IfOk};
ghost use Rattle.bcs_registry_model.specs.View.{shape_of};
ghost use Rattle.bcs_tool_answers.specs.Answers.{AnswersTexts};

use crate::answer::{Answer, refused_text, told};
use crate::validating::Asked;
use bcs_json::compare;
use bcs_tool_command_line::Work;
use std::alloc::{AllocError, Global};

/// Whether two texts have the same value. It doesn't report where one of them is refused.
pub fn answer_pair(
    alloc: Global,
    work: &Work,
    asked: &Asked,
    first: &[u8],
    second: &[u8],
) -> Result<Answer, AllocError>
    ensures answers { IfOk result (λ a. AnswersTexts asked.now.registry work.now.limits (shape_of asked.now.format)
        first.now second.now a.status a.output.items) }
    ensures place { IfOk result (λ a. a.place.items ≡ []) }
{
    let Asked {
        registry,
        format,
        ..
    } = asked;
    match compare(alloc, registry, format, &work.limits, first, second) {
        Ok(true) => told(alloc, 0, "equal"),
        Ok(false) => told(alloc, 1, "different"),
        Err(fault) => refused_text(alloc, fault),
    }
}
