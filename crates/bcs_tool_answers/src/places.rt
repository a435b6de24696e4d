//! Where a refusal occurred: the line for standard error.
ghost use Rattle.std.specs.Prelude.{◌≡◌, true, false};
ghost use Rattle.std.specs.List.{All};
ghost use Rattle.bcs_tool_answers.specs.Places.{IsPrintable};

use bcs_display_refusal::Refusal;
use bcs_tool_command_line::Work;
use std::alloc::Global;

/// Whether the place of a refused input is reported: never for a quiet job, and for a line only if refusals are JSON.
pub fn reports_place(work: &Work) -> bool
    ensures { result ≡ true → work.now.options.quiet ≡ false }
{
    !work.options.quiet && (!work.options.lines || work.options.json_refusals)
}

/// The line of this refusal, for people.
pub fn place_of(alloc: Global, refusal: Option<Refusal>) -> Vec<u8>
    ensures { All IsPrintable result.items }
{
    match refusal {
        Some(refusal) => place_of_line(alloc, refusal.line(alloc).ok()),
        None => Vec::new(alloc),
    }
}

/// The same of an input; if refusals are requested as JSON, the members of its object.
pub fn place_in_input(alloc: Global, work: &Work, refusal: Option<Refusal>) -> Vec<u8>
    ensures { All IsPrintable result.items }
{
    if !work.options.json_refusals {
        return place_of(alloc, refusal);
    }
    match refusal {
        Some(refusal) => place_of_line(alloc, refusal.members(alloc).ok()),
        None => Vec::new(alloc),
    }
}

/// Returns this line as a place if all its bytes are printable ASCII, and an empty place otherwise. Every place is made
/// here, so the text of a line needs no contract.
pub fn place_of_line(alloc: Global, line: Option<Vec<u8>>) -> Vec<u8>
    ensures { All IsPrintable result.items }
{
    let Some(line) = line else {
        return Vec::new(alloc);
    };
    if is_printable(line.as_slice()) {
        line
    } else {
        Vec::new(alloc)
    }
}

fn is_printable(text: &[u8]) -> bool
    ensures { result ≡ true → All IsPrintable text.now }
{
    text.iter().all(|byte| matches!(byte, b' '..=b'~'))
}
