//! A registry in readable form.
ghost use Rattle.std.specs.Prelude.{◌≡◌, ◌≢◌, ◌↔◌, ℕ, List, IfErr, IfOk, true};
ghost use Rattle.bcs_registry_model.specs.declared.fault.RegistryFault.TheVariants.{OutOfMemory};
ghost use Rattle.bcs_tool_answers.specs.Validating.{IsRegistry, NamesNone, RefusesShow, name_of};
ghost use Rattle.bcs_tool_answers.specs.Places.{IsAnswer};

use crate::answer::{Answer, unplaced};
use crate::job_fault::JobFault;
use crate::refusing::refused_words;
use bcs_display_registry::{RegistryForm, show_registry};
use bcs_display_text::style::Form;
use bcs_registry::{Registry, RegistryFault};
use bcs_tool_command_line::{Command, Work};
use std::alloc::{AllocError, Global};

/// The registry in readable form, or one of its containers with everything it depends on, whatever the input.
pub fn answer_show(alloc: Global, work: &Work) -> Result<Answer, AllocError>
    requires { work.now.command ≡ Command.Show }
    ensures { IfOk result (λ a. (bytes : List ℕ) → IsAnswer work.now bytes a) }
{
    match validate_show(alloc, work) {
        Ok(registry) => Ok(unplaced(alloc, 0, registry_text(alloc, work, &registry)?)),
        Err(fault) => refused_words(alloc, work, fault),
    }
}

// The registry. Its own fault comes before an unknown name.
fn validate_show(alloc: Global, work: &Work) -> Result<Registry, JobFault>
    ensures ok { IfOk result (λ registry. IsRegistry work.now.registry.items registry
        × (NamesNone (name_of work.now) registry → ⊥)) }
    ensures fault { IfErr result (λ e. e ≢ JobFault.Registry OutOfMemory → RefusesShow work.now e) }
{
    let registry = Registry::read(alloc, work.registry.as_slice())?;
    if names_none(work, &registry) {
        return Err(JobFault::Registry(RegistryFault::UnknownName));
    }
    Ok(registry)
}

// Whether a name is given and no container has it.
fn names_none(work: &Work, registry: &Registry) -> bool
    ensures { result ≡ true ↔ NamesNone (name_of work.now) registry.now }
{
    match work.options.name.as_deref() {
        Some(name) => registry.container(name).is_none(),
        None => false,
    }
}

// What is printed of the registry. There is a text, since the name is that of a container.
fn registry_text(alloc: Global, work: &Work, registry: &Registry) -> Result<Vec<u8>, AllocError> {
    let form = match work.options.display.form {
        Form::Json => RegistryForm::Json,
        Form::Ways | Form::Paths | Form::Tree => RegistryForm::Lines,
    };
    show_registry(alloc, registry, work.options.name.as_deref(), form)?.ok_or(AllocError)
}
