//! Opening and closing a registry that stays open between calls.
ghost use Rattle.std.specs.Prelude.{◌≡◌};
ghost use Rattle.std.specs.declared.option.Option.TheVariants.{None};
ghost use Rattle.bcs_registry_model.specs.Container.{Entries};
ghost use Rattle.bcs_calls.specs.Answers.{plain};
ghost use Rattle.bcs_calls.specs.Asking.{IsUnlessMemory};
ghost use Rattle.bcs_calls.specs.Opened.{AnswersOpening};
ghost use Rattle.bcs_calls.specs.Registries.{IsRegistry};
ghost use Rattle.bcs_calls.specs.declared.status.Status.TheVariants.{Done};

use crate::answer::Answer;
use crate::handle::Handle;
use crate::status::Status;
use std::alloc::Global;

/// Parses a registry and stores it in the handle, replacing the one that was open.
pub fn open(alloc: Global, handle: &mut Handle, registry: &[u8]) -> Answer
    ensures answers { AnswersOpening registry.now handle.old.registry handle.new.registry result }
    ensures good { (r : Entries) → IsRegistry registry.now r → IsUnlessMemory result (plain Done) }
{
    match handle.open(alloc, registry) {
        Ok(()) => Answer::plain(Status::Done),
        Err(fault) => Answer::registry_refusal(Status::Registry, fault),
    }
}

/// Closes the open registry, if there is one.
pub fn close(alloc: Global, handle: &mut Handle)
    ensures { handle.new.registry ≡ None }
{
    handle.close(alloc);
}
