//! Documents of a format, for C: its JSON Schema, and an example.
ghost use Rattle.std.specs.Prelude.{◌≡◌, ◌≢◌};
ghost use Rattle.bcs_calls.specs.Statuses.{status_number};
ghost use Rattle.bcs_calls.specs.declared.status.Status.TheVariants.{Done};

use crate::answer::Answer;
use crate::asked::Asked;
use crate::fault::Fault;
use crate::output::put;
use crate::status::Status;
use bcs_display_example::{
    ExampleForm, ExampleOptions, ExampleOptionsFault, ExampleTextFault, example_text,
};
use bcs_display_schema::schema_text;
use std::alloc::{AllocError, Global};
use std::str::from_utf8;

pub(crate) fn schema(alloc: Global, asked: &Asked, out: &mut [u8]) -> Answer
    ensures untouched { result.status ≢ status_number Done → out.new ≡ out.old }
{
    match schema_text(alloc, asked.registry, asked.format) {
        Ok(text) => put(text.as_bytes(), out),
        Err(AllocError) => Answer::plain(Status::Memory),
    }
}

pub(crate) fn example(
    alloc: Global,
    asked: &Asked,
    form: u32,
    variant: &[u8],
    out: &mut [u8],
) -> Answer
    ensures untouched { result.status ≢ status_number Done → out.new ≡ out.old }
{
    let Ok(variant) = from_utf8(variant) else {
        return Answer::refusal(Status::Refused, Fault::ExampleUnknownVariant);
    };
    let options = options_of(form, variant);
    match example_text(alloc, asked.registry, asked.format, &options, &asked.limits) {
        Ok(text) => put(text.as_bytes(), out),
        Err(fault) => example_refusal(fault),
    }
}

fn options_of(form: u32, variant: &str) -> ExampleOptions<'_> {
    ExampleOptions {
        variant: if variant.is_empty() {
            None
        } else {
            Some(variant)
        },
        form: if form == 1 {
            ExampleForm::Full
        } else {
            ExampleForm::Least
        },
    }
}

fn example_refusal(fault: ExampleTextFault) -> Answer {
    let fault = match fault {
        ExampleTextFault::Options(ExampleOptionsFault::OutOfMemory) => {
            return Answer::plain(Status::Memory);
        }
        ExampleTextFault::Options(ExampleOptionsFault::UnknownVariant) => {
            Fault::ExampleUnknownVariant
        }
        ExampleTextFault::Options(ExampleOptionsFault::NoValue) => Fault::ExampleNoValue,
        ExampleTextFault::Options(ExampleOptionsFault::TooManyNodes) => Fault::ExampleTooManyNodes,
        ExampleTextFault::TooNested => Fault::ExampleTooNested,
    };
    Answer::refusal(Status::Refused, fault)
}
