//! Bytes piece by piece, and byte strings in them, for C.
ghost use Rattle.std.specs.Prelude.{◌≡◌, ◌≢◌, [], IfErr, IfOk};
ghost use Rattle.bcs_display_pieces.specs.IsPlain.{IsPlain};
ghost use Rattle.bcs_calls.specs.Asking.{On};
ghost use Rattle.bcs_calls.specs.Explained.{AnswersExplainedWith, RefusesViews};
ghost use Rattle.bcs_calls.specs.Statuses.{status_number};
ghost use Rattle.bcs_calls.specs.declared.status.Status.TheVariants.{Done};

use crate::answer::Answer;
use crate::asked::Asked;
use crate::explaining::explained;
use crate::fault::Fault;
use crate::status::Status;
use crate::view_lines::read_lines;
use bcs_display_pieces::Views;
use bcs_registry::{Registry, RegistryFault};
use std::alloc::{AllocError, Global};
use std::str::from_utf8;

/// Writes the pieces to the start of the output.
pub(crate) fn explanation_with(
    alloc: Global,
    asked: &Asked,
    form: u32,
    views: &[u8],
    bytes: &[u8],
    out: &mut [u8],
) -> Answer
    ensures answers { On asked.now (λ r l s. AnswersExplainedWith r l s views.now bytes.now out.old out.new result) }
    ensures untouched { result.status ≢ status_number Done → out.new ≡ out.old }
{
    match read_views(alloc, asked.registry, views) {
        Ok(views) => explained(alloc, asked, form, &views, bytes, out),
        Err(answer) => answer,
    }
}

/// The views that the lines request, or their refusal.
fn read_views(alloc: Global, registry: &Registry, lines: &[u8]) -> Result<Views, Answer>
    ensures none { IfOk result (λ views. lines.now ≡ [] → IsPlain views) }
    ensures err { IfErr result (λ a. RefusesViews a) }
    ensures some { IfErr result (λ a. lines.now ≢ []) }
{
    if lines.is_empty() {
        return Ok(Views::none(alloc));
    }
    let Ok(text) = from_utf8(lines) else {
        return Err(Answer::refusal(Status::Path, Fault::BadPath));
    };
    let requested = match read_lines(alloc, text) {
        Ok(Some(requested)) => requested,
        Ok(None) => return Err(Answer::refusal(Status::Path, Fault::BadPath)),
        Err(AllocError) => return Err(Answer::plain(Status::Memory)),
    };
    match Views::read(alloc, registry, requested.as_slice()) {
        Ok(Ok(views)) => Ok(views),
        Ok(Err(refused)) => Err(view_refusal(refused.fault)),
        Err(AllocError) => Err(Answer::plain(Status::Memory)),
    }
}

/// A view names no part; or its format or function isn't in the registry.
fn view_refusal(fault: Option<RegistryFault>) -> Answer
    ensures { RefusesViews result }
{
    match fault {
        Some(fault) => Answer::registry_refusal(Status::Format, fault),
        None => Answer::refusal(Status::Path, Fault::BadPath),
    }
}
