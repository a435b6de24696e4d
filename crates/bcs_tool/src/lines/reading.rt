//! The next line of an input.
ghost use Rattle.bcs_tool.specs.Lines.{ReadsLine, TakesHeld};

use crate::jobs::interruption::Interruption;
use crate::jobs::run_fault::RunFault;
use crate::lines::no_source::NoSource;
use bcs_io::{ByteSource, LineBuffer};
use bcs_tool_command_line::limits::SIZE_LIMIT;

/// Reads the next line of this input, after this number of answered ones, and returns whether there is one.
pub fn read_line<S: ByteSource>(
    buffer: &mut LineBuffer,
    source: &mut S,
    answered: u64,
) -> Result<bool, Interruption>
    ensures { ReadsLine S.content S.is_failed S.allowance answered
        source.old source.new buffer.old buffer.new result }
{
    match buffer.advance(source, SIZE_LIMIT) {
        Ok(has_line) => Ok(has_line),
        Err(fault) => Err(Interruption {
            fault: RunFault::of_next(fault),
            answered,
        }),
    }
}

/// Makes the next line the current one if all of it was already read, and returns whether that is so. It reads nothing.
pub fn take_held_line(buffer: &mut LineBuffer) -> bool
    ensures { TakesHeld buffer.old buffer.new result }
{
    match buffer.advance(&mut NoSource, SIZE_LIMIT) {
        Ok(has_line) => has_line,
        Err(_) => false,
    }
}
