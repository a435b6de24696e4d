//! Registries that are made from the modules of Move chains, for C.
ghost use Rattle.std.specs.Prelude.{◌≡◌, ◌≢◌, ◌++◌, ◌∷◌, List, ℕ, IfOk, string_bytes};
ghost use Rattle.bcs_move.specs.Made.{WritesSome};
ghost use Rattle.bcs_calls.specs.Modules.{AnswersModules, AnswersModulesRefusal, WritesWithNotes};
ghost use Rattle.bcs_calls.specs.Statuses.{status_number};
ghost use Rattle.bcs_calls.specs.declared.status.Status.TheVariants.{Done};

use crate::answer::Answer;
use crate::fault::Fault;
use crate::output::put;
use crate::status::Status;
use crate::whole_refusals::written;
use bcs_move::{
    MadeRegistry, MoveFault, MovePlace, MoveRefusal, MoveRefusalName, notes_line,
    registry_of_bytes, shown_refusal,
};
use std::alloc::{AllocError, Global};
use std::str::from_utf8;

/// The JSON of the registry for these types and functions, one on each line. If its reader has to know more, a line feed
/// and the notes follow.
pub(crate) fn text_of_modules(alloc: Global, modules: &[u8], types: &[u8], out: &mut [u8]) -> Answer
    ensures answers { AnswersModules out.old out.new result }
    ensures untouched { result.status ≢ status_number Done → out.new ≡ out.old }
{
    match made_text(alloc, modules, types) {
        Ok(text) => put(&text, out),
        Err(MoveFault::Refused(refusal)) => {
            Answer::refusal(Status::Refused, Fault::Move(refusal.name))
        }
        Err(MoveFault::OutOfMemory) => Answer::plain(Status::Memory),
    }
}

/// Where the modules, or a type or function, are refused, a NUL, and the message.
pub(crate) fn told_modules(alloc: Global, modules: &[u8], types: &[u8], out: &mut [u8]) -> Answer
    ensures answers { AnswersModulesRefusal out.old out.new result }
    ensures untouched { result.status ≢ status_number Done → out.new ≡ out.old }
{
    match made_text(alloc, modules, types) {
        Ok(_) => Answer::plain(Status::No),
        Err(MoveFault::Refused(refusal)) => told(alloc, refusal, out),
        Err(MoveFault::OutOfMemory) => Answer::plain(Status::Memory),
    }
}

fn told(alloc: Global, refusal: MoveRefusal, out: &mut [u8]) -> Answer
    ensures answers { AnswersModulesRefusal out.old out.new result }
    ensures untouched { result.status ≢ status_number Done → out.new ≡ out.old }
{
    let fault = Fault::Move(refusal.name);
    match written(alloc, &shown_refusal(refusal)) {
        Ok(told) => put(&told, out).with_fault(fault),
        Err(AllocError) => Answer::plain(Status::Memory),
    }
}

/// The registry's JSON, and the notes on a line of their own.
fn made_text(alloc: Global, modules: &[u8], types: &[u8]) -> Result<Vec<u8>, MoveFault>
    ensures { IfOk result (λ text. WritesWithNotes text.items) }
{
    let MadeRegistry { json, notes } = made(alloc, modules, types)?;
    let text = json.into_bytes();
    if notes.is_empty() {
        Ok(text)
    } else {
        with_notes(alloc, text, &notes)
    }
}

/// The text, and the notes on a line of their own.
fn with_notes(alloc: Global, mut text: Vec<u8>, notes: &[String]) -> Result<Vec<u8>, MoveFault>
    ensures { IfOk result (λ whole. (line : List ℕ) × (whole.items ≡ text.items ++ (10 ∷ line))) }
{
    text.push(b'\n')?;
    text.extend_from_slice(&notes_line(alloc, notes)?)?;
    Ok(text)
}

fn made(alloc: Global, modules: &[u8], types: &[u8]) -> Result<MadeRegistry, MoveFault>
    ensures { IfOk result (λ made. WritesSome (string_bytes made.json)) }
{
    let Ok(lines) = from_utf8(types) else {
        return Err(no_types(alloc));
    };
    let mut words = Vec::new(alloc);
    for line in lines.split('\n') {
        if !line.is_empty() {
            words.push(line)?;
        }
    }
    registry_of_bytes(alloc, modules, &words)
}

// Refuses types that aren't UTF-8.
fn no_types(alloc: Global) -> MoveFault {
    match String::from_str(alloc, "the types aren't UTF-8") {
        Ok(message) => MoveFault::Refused(MoveRefusal {
            name: MoveRefusalName::BadType,
            place: MovePlace::Requested(String::new(alloc)),
            message,
        }),
        Err(AllocError) => MoveFault::OutOfMemory,
    }
}
