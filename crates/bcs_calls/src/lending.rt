//! The arguments of a call besides its input.
ghost use Rattle.std.specs.Prelude.{◌≡◌, IfErr, IfOk};
ghost use Rattle.std.specs.declared.option.Option.TheVariants.{Some};
ghost use Rattle.bcs_registry_model.specs.View.{shape_of};
ghost use Rattle.bcs_calls.specs.Asking.{AsksFor, RefusesAsk, on_handle};
ghost use Rattle.bcs_calls.specs.Keeping.{Knows};

use crate::answer::Answer;
use crate::asked::Lent;
use crate::handle::Handle;
use crate::open_registry::OpenRegistry;
use crate::question::Question;
use crate::status::Status;
use bcs_value::Limits;
use std::alloc::Global;

/// Parses the arguments for an open registry: the format, then the limits. If one is refused, returns the registry.
pub(crate) fn lend(
    alloc: Global,
    mut opened: Box<OpenRegistry>,
    ask: &Question,
) -> Result<Lent, (Box<OpenRegistry>, Answer)>
    ensures ok { IfOk result (λ lent. AsksFor (on_handle (Some opened.value) ask.now) lent.opened.value lent.limits (shape_of lent.known.format)) }
    ensures knows { IfOk result (λ lent. Knows lent.opened.value lent.known) }
    ensures err { IfErr result (λ x. RefusesAsk (on_handle (Some opened.value) ask.now) x.1 × (x.0.value ≡ opened.value)) }
{
    let known = match opened.format(alloc, ask.format) {
        Ok(known) => known,
        Err(answer) => return Err((opened, answer)),
    };
    match Limits::new(ask.depth, ask.nodes) {
        Some(limits) => Ok(Lent {
            opened,
            known,
            limits,
        }),
        None => {
            opened.keep(known);
            Err((opened, Answer::plain(Status::Limits)))
        }
    }
}

/// Takes the open registry out of a handle and parses the format, then the limits. If one is refused, the handle is
/// unchanged.
pub(crate) fn take_ask(alloc: Global, handle: &mut Handle, ask: &Question) -> Result<Lent, Answer>
    ensures ok { IfOk result (λ lent. AsksFor (on_handle handle.old.registry ask.now) lent.opened.value lent.limits (shape_of lent.known.format)) }
    ensures knows { IfOk result (λ lent. Knows lent.opened.value lent.known) }
    ensures err { IfErr result (λ a. RefusesAsk (on_handle handle.old.registry ask.now) a × (handle.new.registry ≡ handle.old.registry)) }
{
    let Some(opened) = handle.take(alloc) else {
        return Err(Answer::plain(Status::Closed));
    };
    match lend(alloc, opened, ask) {
        Ok(lent) => Ok(lent),
        Err(refused) => {
            handle.put(refused.0);
            Err(refused.1)
        }
    }
}
