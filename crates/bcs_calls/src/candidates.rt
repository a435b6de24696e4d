//! The containers that bytes are exactly one value of, for C.
ghost use Rattle.std.specs.Prelude.{◌≡◌, ◌≢◌};
ghost use Rattle.bcs_calls.specs.Statuses.{status_number};
ghost use Rattle.bcs_calls.specs.declared.status.Status.TheVariants.{Done};

use crate::answer::Answer;
use crate::asked::Asked;
use crate::output::put;
use crate::status::Status;
use bcs_display_candidates::{CandidateForm, candidate_lines, candidates};
use std::alloc::{AllocError, Global};

/// Writes a line for each container to the start of the output.
pub(crate) fn listed_candidates(
    alloc: Global,
    asked: &Asked,
    form: u32,
    bytes: &[u8],
    out: &mut [u8],
) -> Answer
    ensures untouched { result.status ≢ status_number Done → out.new ≡ out.old }
{
    match lines_of(alloc, asked, numbered_form(form), bytes) {
        Ok(lines) => put(&lines, out),
        Err(AllocError) => Answer::plain(Status::Memory),
    }
}

fn lines_of(
    alloc: Global,
    asked: &Asked,
    form: CandidateForm,
    bytes: &[u8],
) -> Result<Vec<u8>, AllocError> {
    let found = candidates(alloc, asked.registry, &asked.limits, bytes)?;
    candidate_lines(alloc, &found, bytes.len(), form)
}

/// The form with this number. The other forms of `explain` are names.
fn numbered_form(form: u32) -> CandidateForm {
    match form {
        3 => CandidateForm::Json,
        _ => CandidateForm::Name,
    }
}
