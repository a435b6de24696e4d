//! Differences between two registries, for C.
ghost use Rattle.std.specs.Prelude.{◌≡◌, ◌≢◌};
ghost use Rattle.bcs_calls.specs.Statuses.{status_number};
ghost use Rattle.bcs_calls.specs.declared.status.Status.TheVariants.{Done};

use crate::answer::Answer;
use crate::fault::Fault;
use crate::output::put;
use crate::registries::read_registry;
use crate::status::Status;
use crate::whole_refusals::written;
use bcs_display_registry::{difference_lines, differences};
use bcs_display_registry_errors::growth_refusal;
use bcs_registry::Registry;
use std::alloc::{AllocError, Global};

/// All differences, one per line. If the older registry doesn't grow into the newer one, the answer reports the fault.
pub(crate) fn growth_list(alloc: Global, older: &[u8], newer: &[u8], out: &mut [u8]) -> Answer
    ensures untouched { result.status ≢ status_number Done → out.new ≡ out.old }
{
    let (older, newer) = match read_both(alloc, older, newer) {
        Ok(both) => both,
        Err(answer) => return answer,
    };
    let Ok(lines) = all_lines(alloc, &older, &newer) else {
        return Answer::plain(Status::Memory);
    };
    match older.grows(&newer) {
        Ok(()) => put(&lines, out),
        Err(fault) => put(&lines, out).with_fault(Fault::Growth(fault)),
    }
}

/// Where the older registry doesn't grow into the newer one, a NUL, and the message.
pub(crate) fn told_growth(alloc: Global, older: &[u8], newer: &[u8], out: &mut [u8]) -> Answer
    ensures untouched { result.status ≢ status_number Done → out.new ≡ out.old }
{
    let (older, newer) = match read_both(alloc, older, newer) {
        Ok(both) => both,
        Err(answer) => return answer,
    };
    let Err(fault) = older.grows(&newer) else {
        return Answer::plain(Status::No);
    };
    match told_of_growth(alloc, &older, &newer) {
        Ok(Some(told)) => put(&told, out).with_fault(Fault::Growth(fault)),
        Ok(None) => put(b"", out).with_fault(Fault::Growth(fault)),
        Err(AllocError) => Answer::plain(Status::Memory),
    }
}

fn told_of_growth(
    alloc: Global,
    older: &Registry,
    newer: &Registry,
) -> Result<Option<Vec<u8>>, AllocError> {
    match growth_refusal(alloc, older.containers(), newer.containers())? {
        Some(refusal) => Ok(Some(written(alloc, &refusal)?)),
        None => Ok(None),
    }
}

fn read_both(alloc: Global, older: &[u8], newer: &[u8]) -> Result<(Registry, Registry), Answer> {
    let older = read_registry(alloc, older, Status::Registry)?;
    let newer = read_registry(alloc, newer, Status::Newer)?;
    Ok((older, newer))
}

fn all_lines(alloc: Global, older: &Registry, newer: &Registry) -> Result<Vec<u8>, AllocError> {
    let found = differences(alloc, older.containers(), newer.containers())?;
    difference_lines(alloc, found.as_slice())
}
