//! Bytes as JSON, for C.
ghost use Rattle.std.specs.Prelude.{◌≡◌, ◌≢◌};
ghost use Rattle.bcs_calls.specs.Asking.{On};
ghost use Rattle.bcs_calls.specs.Shown.{AnswersBytes};
ghost use Rattle.bcs_calls.specs.Statuses.{status_number};
ghost use Rattle.bcs_calls.specs.declared.status.Status.TheVariants.{Done};

use crate::answer::Answer;
use crate::asked::Asked;
use crate::fault::Fault;
use crate::output::put;
use crate::status::Status;
use bcs_json::{FromFault, from_bcs};
use std::alloc::Global;

/// Writes the JSON of the value that the whole input encodes to the start of the output.
pub(crate) fn bytes_text(alloc: Global, asked: &Asked, bytes: &[u8], out: &mut [u8]) -> Answer
    ensures answers { On asked.now (λ r l s. AnswersBytes r l s bytes.now out.old out.new result) }
    ensures untouched { result.status ≢ status_number Done → out.new ≡ out.old }
{
    match from_bcs(alloc, asked.registry, asked.format, &asked.limits, bytes) {
        Ok(text) => put(text.as_bytes(), out),
        Err(FromFault::Stop(stop)) => Answer::stopped(stop),
        Err(FromFault::TooNested) => Answer::refusal(Status::Refused, Fault::ShownTooNested),
        Err(FromFault::OutOfMemory) => Answer::plain(Status::Memory),
    }
}
