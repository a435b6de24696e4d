//! Where a format or a path is refused, for C: the place in it, a NUL, and the message.
ghost use Rattle.std.specs.Prelude.{◌≡◌, ◌≢◌};
ghost use Rattle.bcs_calls.specs.Statuses.{status_number};
ghost use Rattle.bcs_calls.specs.declared.status.Status.TheVariants.{Done};

use crate::answer::Answer;
use crate::fault::Fault;
use crate::output::put;
use crate::registries::read_registry;
use crate::status::Status;
use crate::whole_refusals::written;
use bcs_decode_parts::{PathFault, read_path};
use bcs_display_errors::path_refusal;
use bcs_display_registry_errors::format_refusal;
use bcs_registry::RegistryFault;
use std::alloc::{AllocError, Global};
use std::str::from_utf8;

/// Where in a format it is refused, a NUL, and the message. Empty if there is nothing to say besides the fault.
pub(crate) fn told_format(alloc: Global, registry: &[u8], format: &[u8], out: &mut [u8]) -> Answer
    ensures untouched { result.status ≢ status_number Done → out.new ≡ out.old }
{
    let opened = match read_registry(alloc, registry, Status::Registry) {
        Ok(opened) => opened,
        Err(answer) => return answer,
    };
    let fault = match opened.read_format(alloc, format) {
        Ok(_) => return Answer::plain(Status::No),
        Err(fault) => fault,
    };
    match told_of_format(alloc, registry, format, fault) {
        Ok(told) => put(&told, out).with_fault(Fault::Registry(fault)),
        Err(AllocError) => Answer::plain(Status::Memory),
    }
}

/// A format is always JSON here. In the program, anything that doesn't begin like JSON is the name of a container.
fn told_of_format(
    alloc: Global,
    registry: &[u8],
    format: &[u8],
    fault: RegistryFault,
) -> Result<Vec<u8>, AllocError> {
    let refusal = match from_utf8(format) {
        Ok(word) if word.starts_with('{') || word.starts_with('"') => {
            format_refusal(alloc, registry, word, fault)
        }
        _ => Ok(None),
    };
    match (fault, refusal) {
        (RegistryFault::OutOfMemory, _) | (_, Err(_)) => Err(AllocError),
        (_, Ok(Some(refusal))) => written(alloc, &refusal),
        (_, Ok(None)) => Ok(Vec::new(alloc)),
    }
}

/// The step of a path that is refused, a NUL, and the message. Empty if the path isn't UTF-8.
pub(crate) fn told_path(alloc: Global, path: &[u8], out: &mut [u8]) -> Answer
    ensures untouched { result.status ≢ status_number Done → out.new ≡ out.old }
{
    match told_of_path(alloc, path) {
        Ok(Some(told)) => put(&told, out).with_fault(Fault::BadPath),
        Ok(None) => Answer::plain(Status::No),
        Err(AllocError) => Answer::plain(Status::Memory),
    }
}

/// What is told, or `None` if the path is valid.
fn told_of_path(alloc: Global, path: &[u8]) -> Result<Option<Vec<u8>>, AllocError> {
    let Ok(word) = from_utf8(path) else {
        return Ok(Some(Vec::new(alloc)));
    };
    match read_path(alloc, word) {
        Ok(_) => Ok(None),
        Err(PathFault::OutOfMemory) => Err(AllocError),
        Err(PathFault::BadPath) => match path_refusal(alloc, word)? {
            Some(refusal) => Ok(Some(written(alloc, &refusal)?)),
            None => Ok(Some(Vec::new(alloc))),
        },
    }
}
