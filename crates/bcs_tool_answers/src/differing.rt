//! The answers of `diff`: where two values differ.
ghost use Rattle.std.specs.Prelude.{◌≡◌, ◌≤◌, ◌<◌, IfOk, length};
ghost use Rattle.bcs_tool_command_line.specs.Files.{size_limit};
ghost use Rattle.bcs_tool_answers.specs.Differing.{IsPrintedBy, TellsEquality};
ghost use Rattle.bcs_tool_answers.specs.Places.{IsAnswer};
ghost use Rattle.bcs_tool_answers.specs.Preparing.{IsAskedBy};

use crate::answer::{Answer, unplaced};
use crate::given_values::{Given, value_in};
use crate::validating::Asked;
use bcs_display_differences::{Difference, differences, put_count, put_line, put_object};
use bcs_display_text::style::Form;
use bcs_tool_command_line::{Command, Work};
use std::alloc::{AllocError, Global};

/// Where the values of A and of the input differ.
pub fn answer_diff(
    alloc: Global,
    work: &Work,
    asked: &Asked,
    input: &[u8],
) -> Result<Answer, AllocError>
    requires command { work.now.command ≡ Command.Diff }
    requires asked { IsAskedBy work.now asked.now }
    requires within { length input.now ≤ size_limit }
    ensures { IfOk result (λ a. IsAnswer work.now input.now a) }
{
    differing_values(alloc, work, asked, input)
}

// The same, or the refusal of the first of the two that isn't a value.
fn differing_values(
    alloc: Global,
    work: &Work,
    asked: &Asked,
    input: &[u8],
) -> Result<Answer, AllocError>
    requires asked { IsAskedBy work.now asked.now }
    ensures { IfOk result (IsPrintedBy work.now) }
{
    let display = work.options.display;
    let first = match value_in(alloc, work, asked, "A", display.a, work.second.as_slice())? {
        Given::Bytes(bytes) => bytes,
        Given::Refused(answer) => return Ok(answer),
    };
    let second = match value_in(alloc, work, asked, "B", display.b, input)? {
        Given::Bytes(bytes) => bytes,
        Given::Refused(answer) => return Ok(answer),
    };
    compared(alloc, work, asked, first.as_slice(), second.as_slice())
}

// Where the values with these bytes differ, and whether they do.
fn compared(
    alloc: Global,
    work: &Work,
    asked: &Asked,
    first: &[u8],
    second: &[u8],
) -> Result<Answer, AllocError>
    requires { IsAskedBy work.now asked.now }
    ensures { IfOk result (IsPrintedBy work.now) }
{
    let (registry, format) = (&asked.registry, &asked.format);
    let list = differences(alloc, registry, format, &work.limits, first, second)?;
    let output = printed(alloc, work.options.display.form, list.as_slice())?;
    Ok(unplaced(alloc, status_of(first, second), output))
}

fn status_of(first: &[u8], second: &[u8]) -> u8
    ensures equality { TellsEquality first.now second.now result }
    ensures bound { result < 3 }
{
    if first == second { 0 } else { 1 }
}

// A line for each difference, and then `equal` or `different`, or in JSON their number.
fn printed(alloc: Global, form: Form, list: &[Difference]) -> Result<Vec<u8>, AllocError> {
    let mut output = Vec::new(alloc);
    for difference in list {
        match form {
            Form::Json => put_object(difference, &mut output)?,
            _ => put_line(difference, &mut output)?,
        }
    }
    match form {
        Form::Json => put_count(list.len(), &mut output)?,
        _ if list.is_empty() => output.extend_from_slice(b"equal\n")?,
        _ => output.extend_from_slice(b"different\n")?,
    }
    Ok(output)
}
