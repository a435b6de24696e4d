//! A registry in readable form, for C.
ghost use Rattle.std.specs.Prelude.{◌≡◌, ◌≢◌};
ghost use Rattle.bcs_calls.specs.Statuses.{status_number};
ghost use Rattle.bcs_calls.specs.declared.status.Status.TheVariants.{Done, Refused};

use crate::answer::Answer;
use crate::fault::Fault;
use crate::output::put;
use crate::status::Status;
use bcs_display_registry::{RegistryForm, show_registry};
use bcs_registry::{Registry, RegistryFault};
use std::alloc::{AllocError, Global};
use std::str::from_utf8;

pub(crate) fn shown_registry(
    alloc: Global,
    registry: &Registry,
    form: u32,
    name: &[u8],
    out: &mut [u8],
) -> Answer
    ensures unrefused { result.status ≢ status_number Refused }
    ensures untouched { result.status ≢ status_number Done → out.new ≡ out.old }
{
    let shown = match from_utf8(name) {
        Ok("") => show_registry(alloc, registry, None, numbered_form(form)),
        Ok(name) => show_registry(alloc, registry, Some(name), numbered_form(form)),
        Err(_) => Ok(None),
    };
    match shown {
        Ok(Some(text)) => put(&text, out),
        Ok(None) => Answer::refusal(Status::Format, Fault::Registry(RegistryFault::UnknownName)),
        Err(AllocError) => Answer::plain(Status::Memory),
    }
}

/// The form with this number. The other forms of `explain` are lines.
fn numbered_form(form: u32) -> RegistryForm {
    match form {
        3 => RegistryForm::Json,
        _ => RegistryForm::Lines,
    }
}
