//! The length of the value at the start of the input, for C.
ghost use Rattle.std.specs.Prelude.{◌≡◌, ℕ};
ghost use Rattle.bcs_value_model.specs.Tree.{Tree};
ghost use Rattle.bcs_decode_spec.specs.Accepting.{Accepts};
ghost use Rattle.bcs_decode_spec.specs.Stopping.{Stops};
ghost use Rattle.bcs_decode_spec.specs.declared.reason.Reason.{Reason};
ghost use Rattle.bcs_calls.specs.Answers.{sized, stop_at};
ghost use Rattle.bcs_calls.specs.Asking.{IsUnlessMemory, On};
ghost use Rattle.bcs_calls.specs.Scanned.{AnswersScan};
ghost use Rattle.bcs_calls.specs.declared.status.Status.TheVariants.{Done};

use crate::answer::Answer;
use crate::asked::Asked;
use crate::status::Status;
use bcs_decode::scan;
use std::alloc::Global;

/// Returns the length of the value at the start of the input.
pub(crate) fn value_length(asked: &Asked, bytes: &[u8]) -> Answer
    ensures answers { On asked.now (λ r l s. AnswersScan r l s bytes.now result) }
    ensures only { On asked.now (λ r l s. (n : ℕ) (c : Tree) → Accepts r l s bytes.now n c
        → IsUnlessMemory result (sized Done n)) }
    ensures stopped { On asked.now (λ r l s. (e : Reason) (o : ℕ) → Stops r l s bytes.now e o
        → IsUnlessMemory result (stop_at e o)) }
{
    match scan(asked.registry, asked.format, &asked.limits, bytes) {
        Ok(length) => Answer::sized(Status::Done, length),
        Err(stop) => Answer::stopped(stop),
    }
}
