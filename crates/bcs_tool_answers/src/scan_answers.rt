//! The answers of `scan`: bytes that are only validated.
ghost use Rattle.std.specs.Prelude.{◌≡◌, false, length, IfErr, IfOk};
ghost use Rattle.bcs_registry_model.specs.View.{shape_of};
ghost use Rattle.bcs_value_model.specs.Tree.{Tree};
ghost use Rattle.bcs_decode_spec.specs.Accepting.{Accepts};
ghost use Rattle.bcs_tool_command_line.specs.declared.command.Command.TheVariants as command;
ghost use Rattle.bcs_tool_answers.specs.Answers.{ScanStops};
ghost use Rattle.bcs_tool_answers.specs.Validating.{is_unlimited};
ghost use Rattle.bcs_tool_answers.specs.Places.{AnswersBytes};
ghost use Rattle.bcs_tool_answers.specs.Preparing.{IsAskedBy};

use crate::answer::{Answer, counted};
use crate::stop_answers::answer_stop;
use crate::validating::Asked;
use bcs_decode::{Reason, Stop, scan};
use bcs_tool_command_line::{Command, Work};
use std::alloc::{AllocError, Global};

/// Whether the job's input may have any size, since its bytes are validated as they arrive.
pub fn is_unlimited(work: &Work) -> bool
    ensures { result ≡ is_unlimited work.now }
{
    work.command == Command::Scan && work.coding().is_raw()
}

/// The length in bytes of the value that has these bytes, or of the value at their front if only that is requested.
pub fn answer_scan(
    alloc: Global,
    work: &Work,
    asked: &Asked,
    bytes: &[u8],
) -> Result<Answer, AllocError>
    requires command { work.now.command ≡ command.Scan }
    requires asked { IsAskedBy work.now asked.now }
    ensures { IfOk result (λ a. AnswersBytes work.now bytes.now a) }
{
    match scanned(work, asked, bytes) {
        Ok(count) => counted(alloc, count),
        Err(stop) => answer_stop(alloc, work, asked, bytes, stop),
    }
}

// The length in bytes of the value: all of these bytes, unless only the front is requested.
fn scanned(work: &Work, asked: &Asked, bytes: &[u8]) -> Result<usize, Stop>
    requires asked { IsAskedBy work.now asked.now }
    ensures found { IfOk result (λ n. ((c : Tree) × Accepts asked.now.registry work.now.limits (shape_of asked.now.format) bytes.now n c)
        × (work.now.options.front ≡ false → n ≡ length bytes.now)) }
    ensures stops { IfErr result (λ stop. ScanStops work.now.options.front asked.now.registry work.now.limits (shape_of asked.now.format)
        bytes.now stop.reason stop.place) }
{
    let count = scan(&asked.registry, &asked.format, &work.limits, bytes)?;
    if work.options.front || count == bytes.len() {
        return Ok(count);
    }
    Err(Stop {
        reason: Reason::TrailingBytes,
        place: count as u64,
    })
}
