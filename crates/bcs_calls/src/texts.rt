//! Values as JSON, for C.
ghost use Rattle.std.specs.Prelude.{◌≡◌, ◌≢◌, IfSome, None, Some};
ghost use Rattle.bcs_json.specs.Refusing.{IsRefusedAs};
ghost use Rattle.bcs_json_spec.specs.Headline.{HasBytes, Normalises};
ghost use Rattle.bcs_json_spec.specs.declared.json_fault.JsonFault.TheVariants.{OutOfMemory};
ghost use Rattle.bcs_calls.specs.Asking.{On};
ghost use Rattle.bcs_calls.specs.Compared.{AnswersComparing};
ghost use Rattle.bcs_calls.specs.Answers.{plain, refusal as refused_for};
ghost use Rattle.bcs_calls.specs.Denoted.{AnswersText};
ghost use Rattle.bcs_calls.specs.Statuses.{status_number};
ghost use Rattle.bcs_calls.specs.declared.fault.Fault.TheVariants.{Text};
ghost use Rattle.bcs_calls.specs.declared.status.Status.TheVariants.{Done, Memory, Refused};

use crate::answer::Answer;
use crate::asked::Asked;
use crate::output::put;
use crate::status::Status;
use bcs_json::{TextRefusal, compare, normalise_or_refusal, to_bcs_or_refusal};
use std::alloc::Global;

/// Writes the bytes of the value that a JSON document represents to the start of the output. If the document is refused,
/// its refusal is put into `kept`.
pub(crate) fn text_bytes(
    alloc: Global,
    asked: &Asked,
    text: &[u8],
    out: &mut [u8],
    kept: &mut Option<TextRefusal>,
) -> Answer
    ensures answers { On asked.now (λ r l s. AnswersText r l s (HasBytes r l s text.now) text.now out.old out.new result) }
    ensures kept { kept.old ≡ None → On asked.now (λ r l s. IfSome kept.new (IsRefusedAs r l s text.now)) }
    ensures untouched { result.status ≢ status_number Done → out.new ≡ out.old }
{
    match to_bcs_or_refusal(alloc, asked.registry, asked.format, &asked.limits, text) {
        Ok(bytes) => put(&bytes, out),
        Err(refusal) => keep(refusal, kept),
    }
}

/// Writes the normal JSON of the value that a document represents to the start of the output. If the document is
/// refused, its refusal is put into `kept`.
pub(crate) fn normal_text(
    alloc: Global,
    asked: &Asked,
    text: &[u8],
    out: &mut [u8],
    kept: &mut Option<TextRefusal>,
) -> Answer
    ensures answers { On asked.now (λ r l s. AnswersText r l s (Normalises r l s text.now) text.now out.old out.new result) }
    ensures kept { kept.old ≡ None → On asked.now (λ r l s. IfSome kept.new (IsRefusedAs r l s text.now)) }
    ensures untouched { result.status ≢ status_number Done → out.new ≡ out.old }
{
    match normalise_or_refusal(alloc, asked.registry, asked.format, &asked.limits, text) {
        Ok(normal) => put(normal.as_bytes(), out),
        Err(refusal) => keep(refusal, kept),
    }
}

/// The answer to a document that is refused like this.
fn keep(refusal: TextRefusal, kept: &mut Option<TextRefusal>) -> Answer
    ensures memory { refusal.fault ≡ OutOfMemory → result ≡ plain Memory }
    ensures refusal { refusal.fault ≢ OutOfMemory → result ≡ refused_for Refused (Text refusal.fault) }
    ensures kept { kept.new ≡ Some refusal }
{
    let answer = Answer::text_refusal(refusal.fault);
    *kept = Some(refusal);
    answer
}

/// Whether two JSON documents represent equal values.
pub(crate) fn comparison(alloc: Global, asked: &Asked, first: &[u8], second: &[u8]) -> Answer
    ensures { On asked.now (λ r l s. AnswersComparing r l s first.now second.now result) }
{
    match compare(
        alloc,
        asked.registry,
        asked.format,
        &asked.limits,
        first,
        second,
    ) {
        Ok(true) => Answer::plain(Status::Done),
        Ok(false) => Answer::plain(Status::No),
        Err(fault) => Answer::text_refusal(fault),
    }
}
