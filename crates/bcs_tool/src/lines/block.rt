//! The lines of a block, which are answered together.
ghost use Rattle.std.specs.Prelude.{◌≡◌, ◌≤◌, ◌<◌, ◌+◌, ◌^◌, ℕ, List, length};
ghost use Rattle.bcs_tool.specs.Blocks.{EndsBlock, HoldsAnswer};
ghost use Rattle.bcs_tool.specs.Lines.{IsTally};
ghost use Rattle.bcs_tool_answers.specs.Preparing.{IsAskedBy};
ghost use Rattle.bcs_tool_command_line.specs.Files.{size_limit};

use crate::jobs::interruption::Interruption;
use crate::lines::held_answers::HeldAnswers;
use crate::lines::reading::take_held_line;
use crate::lines::tally::Tally;
use bcs_io::{ByteSink, LineBuffer, TakeFault};
use bcs_tool_answers::{Asked, answer_line};
use bcs_tool_command_line::Work;
use std::alloc::{AllocError, Global};

/// Answers the current line and those that were read with it, and then writes the answers in one call. It counts them after
/// the earlier ones.
pub fn answer_block<K: ByteSink>(
    alloc: Global,
    work: &Work,
    asked: &Asked,
    buffer: &mut LineBuffer,
    earlier: Tally,
    out: &mut K,
) -> Result<Tally, Interruption>
    requires asked { IsAskedBy work.now asked.now }
    requires within { length buffer.old.line ≤ size_limit }
    requires few { length buffer.old.rest ≤ size_limit }
    requires counted { (statuses : List ℕ) × IsTally earlier statuses }
    requires room { earlier.answered + 1 + length buffer.old.rest < 2 ^ 64 }
    ensures { EndsBlock K.taken K.is_failed work.now earlier buffer.old buffer.new out.old out.new result }
{
    let mut held = HeldAnswers::new(alloc);
    let mut tally = earlier;
    loop {
        match hold_answer(alloc, work, asked, buffer.line(), &mut held) {
            Ok(status) => tally = tally.with(status),
            Err(AllocError) => {
                held.write_to(tally.answered, out)?;
                return Err(Interruption {
                    answered: tally.answered,
                    ..Interruption::from(TakeFault::OutOfMemory)
                });
            }
        }
        if held.is_full() || !take_held_line(buffer) {
            held.write_to(tally.answered, out)?;
            return Ok(tally);
        }
    }
}

// Answers a line, holds the answer, and returns its status. Its place isn't reported.
fn hold_answer(
    alloc: Global,
    work: &Work,
    asked: &Asked,
    line: &[u8],
    held: &mut HeldAnswers,
) -> Result<u8, AllocError>
    requires asked { IsAskedBy work.now asked.now }
    requires within { length line.now ≤ size_limit }
    ensures { HoldsAnswer work.now line.now held.old held.new result }
{
    let answer = answer_line(alloc, work, asked, line)?;
    held.hold(answer.output)?;
    Ok(answer.status)
}
