//! The lines of an input, each of which is answered by itself.
ghost use Rattle.std.specs.Prelude.{◌≡◌, true};
ghost use Rattle.bcs_tool.specs.Lines.{EndsLines};
ghost use Rattle.bcs_tool.specs.Running.{Ends};
ghost use Rattle.bcs_tool_answers.specs.Preparing.{IsAskedBy};

use crate::jobs::interruption::Interruption;
use crate::jobs::places::place_of_tally;
use crate::lines::block::answer_block;
use crate::lines::reading::read_line;
use crate::lines::tally::Tally;
use bcs_io::{ByteSink, ByteSource, LineBuffer};
use bcs_tool_answers::Asked;
use bcs_tool_command_line::{Outcome, Work};
use std::alloc::Global;

/// Writes the answer to each line of the input, and counts the answers by status.
pub fn answer_lines<S: ByteSource, K: ByteSink>(
    alloc: Global,
    work: &Work,
    asked: &Asked,
    input: &mut S,
    out: &mut K,
) -> Result<Outcome, Interruption>
    requires asked { IsAskedBy work.now asked.now }
    requires by_line { work.now.options.lines ≡ true }
    ensures { Ends S.content S.is_failed S.allowance K.taken K.is_failed work.now
        input.old input.new out.old out.new result }
{
    let tally = answer_each_line(alloc, work, asked, input, out)?;
    Ok(Outcome {
        status: tally.run_status(work.options.json_refusals),
        note: "",
        place: place_of_tally(alloc, work.options.quiet, tally),
    })
}

// Reads line after line, and writes the answers to all lines that were read before it reads more.
fn answer_each_line<S: ByteSource, K: ByteSink>(
    alloc: Global,
    work: &Work,
    asked: &Asked,
    input: &mut S,
    out: &mut K,
) -> Result<Tally, Interruption>
    requires asked { IsAskedBy work.now asked.now }
    requires by_line { work.now.options.lines ≡ true }
    ensures { EndsLines S.content S.is_failed S.allowance K.taken K.is_failed work.now
        input.old input.new out.old out.new result }
{
    let mut buffer = LineBuffer::new(alloc);
    let mut tally = Tally::new();
    loop {
        if !read_line(&mut buffer, input, tally.answered)? {
            return Ok(tally);
        }
        tally = answer_block(alloc, work, asked, &mut buffer, tally, out)?;
    }
}
