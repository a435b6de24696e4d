//! The caller's output.
ghost use Rattle.std.specs.Prelude.{◌≡◌, ◌≢◌};
ghost use Rattle.bcs_calls.specs.Output.{Puts};
ghost use Rattle.bcs_calls.specs.Statuses.{status_number};
ghost use Rattle.bcs_calls.specs.declared.status.Status.TheVariants.{Done, Refused};

use crate::answer::Answer;
use crate::status::Status;

/// Copies the bytes to the start of the caller's output.
pub(crate) fn put(bytes: &[u8], out: &mut [u8]) -> Answer
    ensures puts { Puts bytes.now out.old out.new result }
    ensures unrefused { result.status ≢ status_number Refused }
    ensures untouched { result.status ≢ status_number Done → out.new ≡ out.old }
{
    let length = bytes.len();
    if length > out.len() {
        return Answer::sized(Status::Short, length);
    }
    out[..length].copy_from_slice(bytes);
    Answer::sized(Status::Done, length)
}
