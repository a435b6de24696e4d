//! What is printed.
ghost use Rattle.std.specs.Prelude.{◌≡◌, ◌≢◌, IfOk, string_bytes};
ghost use Rattle.hex.specs.Hex.{encode_lower};
ghost use Rattle.bcs_json_spec.specs.FaultNames.{json_fault_name};
ghost use Rattle.bcs_tool_answers.specs.Answers.{count_line, line_of, printed, printed_none, range_line, refusal_line, stop_line};
ghost use Rattle.bcs_tool_answers.specs.Input.{base64_text};
ghost use Rattle.bcs_tool_answers.specs.Places.{PrintsWithoutPlace};

use base64::engine::general_purpose::STANDARD;
use bcs_decode::Stop;
use bcs_json::JsonFault;
use bcs_tool_command_line::Coding;
use std::alloc::{AllocError, Global};

/// The program's status, and what it prints.
#[derive(Debug, Drop)]
pub struct Answer {
    pub status: u8,
    pub output: Vec<u8>,
    /// Where a refusal occurred, without a line end; empty if that isn't reported.
    pub place: Vec<u8>,
}

/// The line of a refusal.
pub fn refused(alloc: Global, name: &str) -> Result<Answer, AllocError>
    ensures { IfOk result (λ a. PrintsWithoutPlace a 2 (refusal_line name.now)) }
{
    let mut text = String::from_str(alloc, "refused: ")?;
    text.push_str(name)?;
    Ok(unplaced(alloc, 2, with_line_end(text)?))
}

/// The line for a refused text. A failed allocation is not a refusal.
pub fn refused_text(alloc: Global, fault: JsonFault) -> Result<Answer, AllocError>
    ensures { IfOk result (λ a. (fault ≢ JsonFault.OutOfMemory)
        × PrintsWithoutPlace a 2 (refusal_line (json_fault_name fault))) }
{
    match fault {
        JsonFault::OutOfMemory => Err(AllocError),
        _ => refused(alloc, fault.name()),
    }
}

/// The line for a registry of N containers, or a value of N bytes.
pub fn counted(alloc: Global, count: usize) -> Result<Answer, AllocError>
    ensures { IfOk result (λ a. PrintsWithoutPlace a 0 (count_line count)) }
{
    let text = format!(in alloc; "ok {count}")?;
    Ok(unplaced(alloc, 0, with_line_end(text)?))
}

/// The line for bytes that stop being a value.
pub fn stopped(alloc: Global, stop: Stop) -> Result<Answer, AllocError>
    ensures { IfOk result (λ a. PrintsWithoutPlace a 2 (stop_line stop.reason stop.place)) }
{
    let reason = stop.reason.name();
    let text = format!(in alloc; "{reason} at {}", stop.place)?;
    refused(alloc, text.as_str())
}

/// A word on a line of its own, with this status.
pub fn told(alloc: Global, status: u8, word: &str) -> Result<Answer, AllocError>
    ensures { IfOk result (λ a. PrintsWithoutPlace a status (line_of word.now)) }
{
    let text = String::from_str(alloc, word)?;
    Ok(unplaced(alloc, status, with_line_end(text)?))
}

/// The text of a value.
pub fn shown(alloc: Global, text: String) -> Result<Answer, AllocError>
    ensures { IfOk result (λ a. PrintsWithoutPlace a 0 (line_of (string_bytes text))) }
{
    Ok(unplaced(alloc, 0, with_line_end(text)?))
}

/// The bytes of a value, as a line of hexadecimal digits or base64, or raw.
pub fn encoded(alloc: Global, bytes: Vec<u8>, coding: Coding) -> Result<Answer, AllocError>
    ensures { IfOk result (λ a. PrintsWithoutPlace a 0 (printed coding bytes.items)) }
{
    let output = match coding {
        Coding::Hexadecimal => digits_line(alloc, bytes.as_slice())?,
        Coding::Base64 => base64_line(alloc, bytes.as_slice())?,
        Coding::Raw => bytes,
    };
    Ok(unplaced(alloc, 0, output))
}

/// The bytes of a part, in the same way.
pub fn found(alloc: Global, bytes: &[u8], coding: Coding) -> Result<Answer, AllocError>
    ensures { IfOk result (λ a. PrintsWithoutPlace a 0 (printed coding bytes.now)) }
{
    let output = match coding {
        Coding::Hexadecimal => digits_line(alloc, bytes)?,
        Coding::Base64 => base64_line(alloc, bytes)?,
        Coding::Raw => Vec::from_slice(alloc, bytes)?,
    };
    Ok(unplaced(alloc, 0, output))
}

/// Where the bytes of a part are, and how many.
pub fn ranged(alloc: Global, place: usize, count: usize) -> Result<Answer, AllocError>
    ensures { IfOk result (λ a. PrintsWithoutPlace a 0 (range_line place count)) }
{
    let text = format!(in alloc; "{place} {count}")?;
    Ok(unplaced(alloc, 0, with_line_end(text)?))
}

/// What is printed if there is no part: `none`, or nothing if bytes are written raw.
pub fn nowhere(alloc: Global, coding: Coding) -> Result<Answer, AllocError>
    ensures { IfOk result (λ a. PrintsWithoutPlace a 1 (printed_none coding)) }
{
    match coding {
        Coding::Hexadecimal | Coding::Base64 => told(alloc, 1, "none"),
        Coding::Raw => Ok(unplaced(alloc, 1, Vec::new(alloc))),
    }
}

/// The answer with the place of its refusal.
pub fn placed(answer: Answer, place: Vec<u8>) -> Answer
    ensures status { result.status ≡ answer.status }
    ensures output { result.output.items ≡ answer.output.items }
    ensures place { result.place.items ≡ place.items }
{
    Answer { place, ..answer }
}

/// An answer with no place.
pub fn unplaced(alloc: Global, status: u8, output: Vec<u8>) -> Answer
    ensures { PrintsWithoutPlace result status output.items }
{
    Answer {
        status,
        output,
        place: Vec::new(alloc),
    }
}

// The bytes as a line of hexadecimal digits.
fn digits_line(alloc: Global, bytes: &[u8]) -> Result<Vec<u8>, AllocError>
    ensures { IfOk result (λ v. v.items ≡ line_of (encode_lower bytes.now)) }
{
    with_line_end(hex::encode(alloc, bytes)?)
}

// The bytes as a line of base64.
fn base64_line(alloc: Global, bytes: &[u8]) -> Result<Vec<u8>, AllocError>
    ensures { IfOk result (λ v. v.items ≡ line_of (base64_text bytes.now)) }
{
    with_line_end(STANDARD.encode(alloc, bytes)?)
}

// The text, followed by a line end.
fn with_line_end(mut text: String) -> Result<Vec<u8>, AllocError>
    ensures { IfOk result (λ bytes. bytes.items ≡ line_of (string_bytes text)) }
{
    text.push_str("\n")?;
    Ok(text.into_bytes())
}
