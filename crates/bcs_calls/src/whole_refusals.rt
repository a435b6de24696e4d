//! Whole refusals, for C: why and where something is refused, and what was expected there.
ghost use Rattle.std.specs.Prelude.{◌≡◌, ◌≢◌, ◌++◌, ◌∷◌, [], IfOk, IfSome, List, true, ℕ};
ghost use Rattle.std.specs.List.{All};
ghost use Rattle.bcs_json_spec.specs.declared.json_fault.JsonFault.TheVariants.{OutOfMemory};
ghost use Rattle.bcs_json.specs.Refusing.{IsRefusedAs};
ghost use Rattle.bcs_registry_model.specs.View.{shape_of};
ghost use Rattle.bcs_calls.specs.Asking.{On};
ghost use Rattle.bcs_calls.specs.Places.{AnswersRegistryRefusal, AnswersStopRefusal, AnswersTextRefusal, IsNoNul, IsParted, IsTextRefusal};
ghost use Rattle.bcs_calls.specs.Statuses.{status_number};
ghost use Rattle.bcs_calls.specs.declared.status.Status.TheVariants.{Done};

use crate::answer::Answer;
use crate::asked::Asked;
use crate::fault::Fault;
use crate::output::put;
use crate::places::{place_of_text, words_of_text};
use crate::status::Status;
use bcs_display_candidates::put_only_candidate;
use bcs_display_pieces::{Stopped, stop_refusal};
use bcs_display_refusal::Refusal;
use bcs_display_registry_errors::registry_refusal;
use bcs_json::{JsonFault, TextRefusal, read_value_or_refusal};
use bcs_registry::{Registry, RegistryFault};
use std::alloc::{AllocError, Global};

pub(crate) fn text_refusal(alloc: Global, asked: &Asked, text: &[u8], out: &mut [u8]) -> Answer
    ensures answers { On asked.now (λ r l s. AnswersTextRefusal r l s text.now out.old out.new result) }
    ensures untouched { result.status ≢ status_number Done → out.new ≡ out.old }
{
    let refusal = match read_value_or_refusal(
        alloc,
        asked.registry,
        asked.format,
        &asked.limits,
        text,
    ) {
        Ok(_) => return Answer::plain(Status::No),
        Err(refusal) => refusal,
    };
    told_refusal(alloc, asked, text, &refusal, out)
}

/// Why a document is refused, where, and what was expected there, if this is its refusal.
pub(crate) fn told_refusal(
    alloc: Global,
    asked: &Asked,
    text: &[u8],
    refusal: &TextRefusal,
    out: &mut [u8],
) -> Answer
    ensures answers { On asked.now (λ r l s. IsRefusedAs r l s text.now refusal.now → AnswersTextRefusal r l s text.now out.old out.new result) }
    ensures untouched { result.status ≢ status_number Done → out.new ≡ out.old }
{
    if refusal.fault == JsonFault::OutOfMemory {
        return Answer::plain(Status::Memory);
    }
    match refusal_of_text(alloc, asked, text, refusal) {
        Some(told) => put(&told, out).with_fault(Fault::Text(refusal.fault)),
        None => Answer::plain(Status::Memory),
    }
}

fn refusal_of_text(
    alloc: Global,
    asked: &Asked,
    text: &[u8],
    refusal: &TextRefusal,
) -> Option<Vec<u8>>
    ensures { IfSome result (λ told. refusal.now.fault ≢ OutOfMemory
        → IsRefusedAs asked.now.registry.now asked.now.limits (shape_of asked.now.format.now) text.now refusal.now
        → IsTextRefusal asked.now.registry.now asked.now.limits (shape_of asked.now.format.now) text.now told.items refusal.now.fault) }
{
    let place = place_of_text(alloc, refusal)?;
    let words = words_of_text(alloc, asked, text, refusal)?;
    both(alloc, &place, without_nul(&words)).ok()
}

pub(crate) fn told_stop(alloc: Global, asked: &Asked, bytes: &[u8], out: &mut [u8]) -> Answer
    ensures answers { On asked.now (λ r l s. AnswersStopRefusal r l s bytes.now out.old out.new result) }
    ensures untouched { result.status ≢ status_number Done → out.new ≡ out.old }
{
    match stop_refusal(alloc, asked.registry, asked.format, &asked.limits, bytes) {
        Ok(Some(stopped)) => {
            let stop = stopped.stop;
            match written_stop(alloc, asked, bytes, stopped) {
                Ok(told) => put(&told, out).with_stop(Some(stop)),
                Err(AllocError) => Answer::plain(Status::Memory),
            }
        }
        Ok(None) => Answer::plain(Status::No),
        Err(AllocError) => Answer::plain(Status::Memory),
    }
}

fn written_stop(
    alloc: Global,
    asked: &Asked,
    bytes: &[u8],
    stopped: Stopped,
) -> Result<Vec<u8>, AllocError>
    ensures { IfOk result (λ told. (place : List ℕ) × IsParted place told.items) }
{
    let Stopped { stop, mut refusal } = stopped;
    put_only_candidate(
        asked.registry,
        asked.format,
        &asked.limits,
        bytes,
        stop.reason,
        &mut refusal.message,
    )?;
    written(alloc, &refusal)
}

/// Where the JSON of a registry is refused, a NUL, and what was expected there.
pub(crate) fn told_registry_refusal(alloc: Global, registry: &[u8], out: &mut [u8]) -> Answer
    ensures answers { AnswersRegistryRefusal registry.now out.old out.new result }
    ensures untouched { result.status ≢ status_number Done → out.new ≡ out.old }
{
    let fault = match Registry::read(alloc, registry) {
        Ok(_) => return Answer::plain(Status::No),
        Err(fault) => fault,
    };
    if fault == RegistryFault::OutOfMemory {
        return Answer::plain(Status::Memory);
    }
    match registry_refusal(alloc, registry, fault) {
        Ok(Some(refusal)) => match written(alloc, &refusal) {
            Ok(told) => put(&told, out).with_fault(Fault::Registry(fault)),
            Err(AllocError) => Answer::plain(Status::Memory),
        },
        Ok(None) | Err(_) => Answer::plain(Status::Memory),
    }
}

/// The place of a refusal, a NUL, and its message.
pub(crate) fn written(alloc: Global, refusal: &Refusal) -> Result<Vec<u8>, AllocError>
    ensures { IfOk result (λ told. (place : List ℕ) × IsParted place told.items) }
{
    let place = refusal.place(alloc)?;
    let words = refusal.words(alloc)?;
    both(alloc, &place, without_nul(&words))
}

/// The place, a NUL, and the message.
fn both(alloc: Global, place: &[u8], message: &[u8]) -> Result<Vec<u8>, AllocError>
    ensures { IfOk result (λ told. told.items ≡ (place.now ++ (0 ∷ [])) ++ message.now) }
{
    let mut told = Vec::from_slice(alloc, place)?;
    told.push(0)?;
    told.extend_from_slice(message)?;
    Ok(told)
}

/// The message, or nothing if it contains a NUL. It is printable ASCII, so this needs no contract where it is made.
fn without_nul(message: &[u8]) -> &[u8]
    ensures { All IsNoNul result.now }
{
    if has_no_nul(message) { message } else { b"" }
}

fn has_no_nul(message: &[u8]) -> bool
    ensures { result ≡ true → All IsNoNul message.now }
{
    message.iter().all(|byte| *byte != 0)
}
