//! What C calls.

ghost use Rattle.std.specs.Prelude.{◌≡◌, ◌≢◌, []};
ghost use Rattle.std.specs.declared.option.Option.TheVariants.{None};
ghost use Rattle.bcs_registry_model.specs.Container.{Entries};
ghost use Rattle.bcs_calls.specs.Answered.{AnswersQuestion};
ghost use Rattle.bcs_calls.specs.Answers.{plain, without_message};
ghost use Rattle.bcs_calls.specs.Asking.{IsUnlessMemory};
ghost use Rattle.bcs_calls.specs.Messages.{TellsQuestion};
ghost use Rattle.bcs_calls.specs.Opened.{AnswersOpening};
ghost use Rattle.bcs_calls.specs.Registries.{IsRegistry};
ghost use Rattle.bcs_calls.specs.Statuses.{status_number};
ghost use Rattle.bcs_calls.specs.declared.status.Status.TheVariants.{Done, Refused};

use bcs_calls::{Answer, Handle, Question};
use std::alloc::Global;

/// Parses a registry and stores it in the handle, replacing the one that was open.
#[unsafe(no_mangle)]
pub extern "C" fn bcs_c_open(alloc: Global, handle: &mut Handle, registry: &[u8]) -> Answer
    ensures answers { AnswersOpening registry.now handle.old.registry handle.new.registry result }
    ensures good { (r : Entries) → IsRegistry registry.now r → IsUnlessMemory result (plain Done) }
{
    bcs_calls::open(alloc, handle, registry)
}

/// Closes the open registry, if there is one.
#[unsafe(no_mangle)]
pub extern "C" fn bcs_c_close(alloc: Global, handle: &mut Handle)
    ensures { handle.new.registry ≡ None }
{
    bcs_calls::close(alloc, handle);
}

/// Answers a question about the open registry, with a message if the input is refused.
#[unsafe(no_mangle)]
pub extern "C" fn bcs_c_ask(
    alloc: Global,
    handle: &mut Handle,
    question: &Question,
    out: &mut [u8],
    message: &mut [u8],
) -> Answer
    ensures answers { AnswersQuestion question.now handle.old.registry out.old out.new (without_message result) }
    ensures tells { result.status ≡ status_number Refused → message.old ≢ [] → TellsQuestion question.now handle.old.registry message.old message.new result }
    ensures untouched { result.status ≢ status_number Done → out.new ≡ out.old }
    ensures quiet { result.status ≢ status_number Refused → message.new ≡ message.old }
    ensures unasked { result.status ≡ status_number Refused → message.old ≡ [] → result.length ≡ 0 }
    ensures kept { handle.new.registry ≡ handle.old.registry }
{
    bcs_calls::ask(alloc, handle, question, out, message)
}
