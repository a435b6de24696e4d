//! An example of a format.
ghost use Rattle.std.specs.Prelude.{◌≡◌, ℕ, List, IfOk};
ghost use Rattle.bcs_registry_model.specs.View.{shape_of};
ghost use Rattle.bcs_tool_answers.specs.Answers.{AsksOfFormat};
ghost use Rattle.bcs_tool_answers.specs.Places.{IsAnswer, MayReport};

use crate::answer::{Answer, placed, refused, shown};
use crate::refusing::refused_words;
use crate::validating::validate_formatted;
use crate::word_places::place_of_wish;
use bcs_display_example::{
    ExampleForm, ExampleOptions, ExampleOptionsFault, ExampleTextFault, example_text,
};
use bcs_registry::{Format, Registry};
use bcs_tool_command_line::{Command, Work};
use std::alloc::{AllocError, Global};

/// The text of the format's example, whatever the input.
pub fn answer_example(alloc: Global, work: &Work) -> Result<Answer, AllocError>
    requires { work.now.command ≡ Command.Example }
    ensures { IfOk result (λ a. (bytes : List ℕ) → IsAnswer work.now bytes a) }
{
    match validate_formatted(alloc, work) {
        Ok((registry, format)) => answer_wish(alloc, work, &registry, &format),
        Err(fault) => refused_words(alloc, work, fault),
    }
}

// The text of the requested example, or why there is none.
fn answer_wish(
    alloc: Global,
    work: &Work,
    registry: &Registry,
    format: &Format,
) -> Result<Answer, AllocError>
    requires asks { AsksOfFormat work.now Command.Example registry.now (shape_of format.now) }
    ensures { IfOk result (λ a. (bytes : List ℕ) → IsAnswer work.now bytes a) }
{
    let wish = ExampleOptions {
        variant: work.options.name.as_deref(),
        form: form_of(work),
    };
    match example_text(alloc, registry, format, &wish, &work.limits) {
        Ok(text) => shown(alloc, text),
        Err(fault) => refused_wish(alloc, work, registry, format, fault),
    }
}

// How the options, lists and maps of the example are filled.
fn form_of(work: &Work) -> ExampleForm {
    if work.options.display.full {
        ExampleForm::Full
    } else {
        ExampleForm::Least
    }
}

// The answer if the requested example doesn't exist. A failed allocation is not a refusal.
fn refused_wish(
    alloc: Global,
    work: &Work,
    registry: &Registry,
    format: &Format,
    fault: ExampleTextFault,
) -> Result<Answer, AllocError>
    ensures { IfOk result (λ a. (a.status ≡ 2) × MayReport work.now a.place.items) }
{
    match fault {
        ExampleTextFault::Options(ExampleOptionsFault::OutOfMemory) => Err(AllocError),
        _ => {
            let place = place_of_wish(alloc, work, registry, format, fault);
            Ok(placed(refused(alloc, fault.name())?, place))
        }
    }
}
