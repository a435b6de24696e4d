//! Bytes piece by piece, for C.
ghost use Rattle.std.specs.Prelude.{◌≡◌, ◌≢◌, IfOk, None};
ghost use Rattle.bcs_registry_model.specs.View.{shape_of};
ghost use Rattle.bcs_display_pieces.specs.EndsAt.{EndsAt};
ghost use Rattle.bcs_display_pieces.specs.IsPlain.{IsPlain};
ghost use Rattle.bcs_calls.specs.Asking.{On};
ghost use Rattle.bcs_calls.specs.Explained.{AnswersPieces, form_numbered};
ghost use Rattle.bcs_calls.specs.Statuses.{status_number};
ghost use Rattle.bcs_calls.specs.declared.status.Status.TheVariants.{Done};

use crate::answer::Answer;
use crate::asked::Asked;
use crate::fault::Fault;
use crate::output::put;
use crate::status::Status;
use bcs_display_pieces::{CallFault, Explanation, Views, explain_text, put_notes};
use bcs_display_text::style::{Form, Paint, Style};
use std::alloc::{AllocError, Global};

/// What is added to a form that includes notes.
const NOTES: u32 = 4;

/// Writes the pieces of the input to the start of the output, and of the byte strings that the views name.
pub(crate) fn explained(
    alloc: Global,
    asked: &Asked,
    form: u32,
    views: &Views,
    bytes: &[u8],
    out: &mut [u8],
) -> Answer
    ensures answers { On asked.now (λ r l s. AnswersPieces (IsPlain views.now) r l s bytes.now out.old out.new result) }
    ensures untouched { result.status ≢ status_number Done → out.new ≡ out.old }
{
    let explained = match explained_with_notes(alloc, asked, form, views, bytes) {
        Ok(explained) => explained,
        Err(_) => return Answer::plain(Status::Memory),
    };
    let answer = put(&explained.text, out);
    match &explained.call {
        None => answer.with_stop(explained.stop),
        Some(call) => answer.with_fault_at(call_fault(call.fault), call.place),
    }
}

/// The explanation in this form, followed by its notes if the form has them.
fn explained_with_notes(
    alloc: Global,
    asked: &Asked,
    form: u32,
    views: &Views,
    bytes: &[u8],
) -> Result<Explanation, AllocError>
    ensures ends { IfOk result (λ x. IsPlain views.now → EndsAt asked.now.registry.now asked.now.limits (shape_of asked.now.format.now) bytes.now x.stop) }
    ensures uncalled { IfOk result (λ x. IsPlain views.now → x.call ≡ None) }
{
    let (number, has_notes) = match form.checked_sub(NOTES) {
        Some(number) if number < NOTES => (number, true),
        _ => (form, false),
    };
    let style = Style {
        form: numbered_form(number),
        paint: Paint::Plain,
    };
    let (registry, format) = (asked.registry, asked.format);
    let Explanation {
        mut text,
        stop,
        inner,
        call,
        notes,
    } = explain_text(alloc, registry, format, &asked.limits, style, views, bytes)?;
    if has_notes {
        put_notes(style.form, &notes, &mut text)?;
    }
    Ok(Explanation {
        text,
        stop,
        inner,
        call,
        notes,
    })
}

fn call_fault(fault: CallFault) -> Fault {
    match fault {
        CallFault::BadPath => Fault::BadPath,
        CallFault::OtherFunction => Fault::OtherFunction,
    }
}

/// The form with this number.
fn numbered_form(form: u32) -> Form
    ensures { result ≡ form_numbered form }
{
    match form {
        1 => Form::Paths,
        2 => Form::Tree,
        3 => Form::Json,
        _ => Form::Ways,
    }
}
