//! Where a run was interrupted, and how its lines were answered: the line on standard error after the note.
ghost use Rattle.std.specs.Prelude.{◌≡◌, ◌++◌, IfOk, OnOk};
ghost use Rattle.std.specs.Fmt.{decimal};
ghost use Rattle.bcs_tool.specs.Running.{run_place, stream_text};
ghost use Rattle.bcs_tool_answers.specs.LineAnswers.{tally_text};
ghost use Rattle.bcs_tool_command_line.specs.FaultPlaces.{ReportsPlace, origin_text};

use crate::jobs::interruption::Interruption;
use crate::jobs::run_fault::RunFault;
use crate::lines::tally::Tally;
use bcs_tool_command_line::{Origin, Work, input_line, output_line};
use std::alloc::{AllocError, Global};

/// Whether the input failed or the output, and at which line, if lines are answered. It is empty for a quiet job, and if
/// memory runs out.
pub fn place_of_interruption(
    alloc: Global,
    work: &Work,
    interruption: Interruption,
    origin: Origin<'_>,
) -> Vec<u8>
    ensures { ReportsPlace work.now.options.quiet (run_place work.now.options.lines interruption.fault (origin_text origin.entry) interruption.answered) result.items }
{
    if work.options.quiet {
        return Vec::new(alloc);
    }
    match interruption_line(alloc, work, interruption, origin) {
        Ok(line) => line,
        Err(AllocError) => Vec::new(alloc),
    }
}

fn interruption_line(
    alloc: Global,
    work: &Work,
    interruption: Interruption,
    origin: Origin<'_>,
) -> Result<Vec<u8>, AllocError>
    ensures { IfOk result (λ line. line.items ≡ run_place work.now.options.lines interruption.fault (origin_text origin.entry) interruption.answered) }
{
    let mut line = stream_line(alloc, interruption.fault, origin)?;
    if work.options.lines {
        if !line.is_empty() {
            line.extend_from_slice(b", ")?;
        }
        let number = u128::from(interruption.answered) + 1;
        put_count(alloc, "line ", number, &mut line)?;
    }
    Ok(line)
}

fn stream_line(alloc: Global, fault: RunFault, origin: Origin<'_>) -> Result<Vec<u8>, AllocError>
    ensures { IfOk result (λ line. line.items ≡ stream_text fault (origin_text origin.entry)) }
{
    match fault {
        RunFault::Take(fault) => input_line(alloc, fault, origin),
        RunFault::Write => output_line(alloc),
    }
}

// Appends a text and a number.
fn put_count(alloc: Global, text: &str, count: u128, line: &mut Vec<u8>) -> Result<(), AllocError>
    ensures { OnOk result (line.new.items ≡ line.old.items ++ text.now ++ decimal count) }
{
    line.extend_from_slice(text.as_bytes())?;
    let digits = format!(in alloc; "{count}")?;
    line.extend_from_slice(digits.as_bytes())
}

/// The number of lines by status. It is empty for a quiet job, or if no memory is left for it.
pub fn place_of_tally(alloc: Global, quiet: bool, tally: Tally) -> Vec<u8>
    ensures { ReportsPlace quiet (tally_text tally.done tally.negative tally.refused) result.items }
{
    if quiet {
        return Vec::new(alloc);
    }
    match tally_line(alloc, tally) {
        Ok(line) => line,
        Err(AllocError) => Vec::new(alloc),
    }
}

fn tally_line(alloc: Global, tally: Tally) -> Result<Vec<u8>, AllocError>
    ensures { IfOk result (λ line. line.items ≡ tally_text tally.done tally.negative tally.refused) }
{
    let mut line = Vec::new(alloc);
    put_count(
        alloc,
        "lines with status 0: ",
        u128::from(tally.done),
        &mut line,
    )?;
    put_count(
        alloc,
        ", with status 1: ",
        u128::from(tally.negative),
        &mut line,
    )?;
    put_count(
        alloc,
        ", with status 2: ",
        u128::from(tally.refused),
        &mut line,
    )?;
    Ok(line)
}
