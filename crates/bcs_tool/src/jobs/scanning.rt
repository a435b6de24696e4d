//! Validates bytes as they arrive. Only the bytes of open keys are held in memory.
ghost use Rattle.std.specs.Prelude.{◌≡◌, ◌↔◌, true, IsErrOf};
ghost use Rattle.bcs_registry_model.specs.View.{shape_of};
ghost use Rattle.bcs_registry_model.specs.WellFormed.{Admits};
ghost use Rattle.bcs_tool.specs.Running.{Ends, Streams};
ghost use Rattle.bcs_tool.specs.Scanning.{AnswersScan, RefusesScan, Scans};
ghost use Rattle.bcs_tool_answers.specs.Preparing.{IsAskedBy};

use crate::jobs::interruption::Interruption;
use crate::jobs::put_answer::put_answer;
use bcs_decode::{DecodeFault, scan_all, scan_from};
use bcs_io::{ByteSink, ByteSource, TakeFault};
use bcs_tool_answers::{Answer, Asked, counted, stopped};
use bcs_tool_command_line::{Outcome, Work};
use std::alloc::Global;

/// Writes the number of bytes of the value in the input, or where the bytes stop being one. It doesn't report which part of
/// the value that is.
pub fn answer_scan<S: ByteSource, K: ByteSink>(
    alloc: Global,
    work: &Work,
    asked: &Asked,
    input: &mut S,
    out: &mut K,
) -> Result<Outcome, Interruption>
    requires asked { IsAskedBy work.now asked.now }
    requires streams { Streams work.now }
    ensures { Ends S.content S.is_failed S.allowance K.taken K.is_failed work.now
        input.old input.new out.old out.new result }
{
    let answer = scan_input(alloc, work, asked, input)?;
    put_answer(answer, out)
}

fn scan_input<S: ByteSource>(
    alloc: Global,
    work: &Work,
    asked: &Asked,
    input: &mut S,
) -> Result<Answer, Interruption>
    requires asked { IsAskedBy work.now asked.now }
    requires streams { Streams work.now }
    ensures { AnswersScan S.content S.is_failed work.now input.old input.new result }
{
    match scanned(alloc, work, asked, input) {
        Ok(length) => Ok(counted(alloc, length as usize)?),
        Err(fault) => refusal(alloc, fault),
    }
}

// The answer to bytes that stop being a value. Any other fault isn't a refusal.
fn refusal(alloc: Global, fault: DecodeFault) -> Result<Answer, Interruption>
    ensures { RefusesScan fault result }
{
    match fault {
        DecodeFault::Stop(stop) => Ok(stopped(alloc, stop)?),
        DecodeFault::Read => Err(Interruption::from(TakeFault::Read)),
        DecodeFault::OutOfMemory => Err(Interruption::from(TakeFault::OutOfMemory)),
    }
}

// The number of bytes of the value, which is at the start of the input, or all of it.
fn scanned<S: ByteSource>(
    alloc: Global,
    work: &Work,
    asked: &Asked,
    input: &mut S,
) -> Result<u64, DecodeFault>
    requires admitted { Admits asked.now.registry (shape_of asked.now.format) }
    ensures told { Scans work.now.options.front asked.now.registry work.now.limits (shape_of asked.now.format)
        (S.content input.old) (S.content input.new) result }
    ensures read { IsErrOf result DecodeFault.Read ↔ S.is_failed input.new ≡ true }
{
    let Asked {
        registry,
        format,
        ..
    } = asked;
    if work.options.front {
        scan_from(alloc, registry, format, &work.limits, input)
    } else {
        scan_all(alloc, registry, format, &work.limits, input)
    }
}
