//! Where the arguments of a job are refused.
ghost use Rattle.bcs_tool_answers.specs.Places.{MayReport};

use crate::job_fault::JobFault;
use crate::places::place_of;
use bcs_display_dead_ends::{wrong_name, wrong_pointer};
use bcs_display_errors::{path_refusal, variant_refusal};
use bcs_display_example::{ExampleOptionsFault, ExampleTextFault};
use bcs_display_refusal::Refusal;
use bcs_display_registry_errors::{
    container_refusal, format_refusal, growth_refusal, registry_refusal,
};
use bcs_registry::{Format, Registry, RegistryFault};
use bcs_tool_command_line::{Command, Notation, Work};
use std::alloc::{AllocError, Global};

/// Where the job's own arguments are refused with this fault. Empty for a quiet job, if the fault has no place, or if an
/// allocation fails.
pub fn place_of_words(alloc: Global, work: &Work, fault: JobFault) -> Vec<u8>
    ensures { MayReport work.now result.items }
{
    if work.options.quiet {
        return Vec::new(alloc);
    }
    match words_refusal(alloc, work, fault) {
        Ok(refusal) => place_of(alloc, refusal),
        Err(_) => Vec::new(alloc),
    }
}

/// Where the newer registry lacks something in the older one. Empty for a quiet job, or if an allocation fails.
pub fn place_of_difference(
    alloc: Global,
    work: &Work,
    older: &Registry,
    newer: &Registry,
) -> Vec<u8>
    ensures { MayReport work.now result.items }
{
    if work.options.quiet {
        return Vec::new(alloc);
    }
    match growth_refusal(alloc, older.containers(), newer.containers()) {
        Ok(refusal) => place_of(alloc, refusal),
        Err(AllocError) => Vec::new(alloc),
    }
}

/// The name after `--variant` that isn't the name of a variant, if the example is refused for that. Empty for a quiet job,
/// for any other fault, or if an allocation fails.
pub fn place_of_wish(
    alloc: Global,
    work: &Work,
    registry: &Registry,
    format: &Format,
    fault: ExampleTextFault,
) -> Vec<u8>
    ensures { MayReport work.now result.items }
{
    if work.options.quiet {
        return Vec::new(alloc);
    }
    match (fault, work.options.name.as_deref()) {
        (ExampleTextFault::Options(ExampleOptionsFault::UnknownVariant), Some(name)) => {
            place_of(alloc, variant_refusal(alloc, registry, format, name).ok())
        }
        _ => Vec::new(alloc),
    }
}

fn words_refusal(
    alloc: Global,
    work: &Work,
    fault: JobFault,
) -> Result<Option<Refusal>, RegistryFault> {
    match fault {
        JobFault::Registry(fault) => registries_refusal(alloc, work, fault),
        JobFault::Growth(_) => Ok(None),
        JobFault::BadPath => Ok(steps_refusal(alloc, work)?),
    }
}

// The first invalid step.
fn steps_refusal(alloc: Global, work: &Work) -> Result<Option<Refusal>, AllocError> {
    let word = work.path.as_str();
    match work.options.notation {
        Notation::Path => path_refusal(alloc, word),
        Notation::Names => Ok(Some(wrong_name(alloc, word)?)),
        Notation::Pointer => Ok(Some(wrong_pointer(alloc, word)?)),
    }
}

// The refusal for this fault, which is in the registry or in the argument that is validated next. No argument after the one
// with the fault is examined.
fn registries_refusal(
    alloc: Global,
    work: &Work,
    fault: RegistryFault,
) -> Result<Option<Refusal>, RegistryFault> {
    let is_grows = work.command == Command::Grows;
    if Registry::read(alloc, work.registry.as_slice()).is_err() {
        let refusal = registry_refusal(alloc, work.registry.as_slice(), fault)?;
        return Ok(if is_grows {
            named("OLD", refusal)
        } else {
            refusal
        });
    }
    match work.command {
        Command::Check => Ok(None),
        Command::Grows => {
            let refusal = registry_refusal(alloc, work.second.as_slice(), fault)?;
            Ok(named("NEW", refusal))
        }
        Command::Show => name_refusal(alloc, work),
        _ => format_refusal(alloc, work.registry.as_slice(), work.format.as_str(), fault),
    }
}

// The refusal, if there is one, in the registry that the help calls by this name.
fn named(name: &'static str, refusal: Option<Refusal>) -> Option<Refusal> {
    Some(refusal?.in_input(name))
}

// The name that no container has.
fn name_refusal(alloc: Global, work: &Work) -> Result<Option<Refusal>, RegistryFault> {
    match work.options.name.as_deref() {
        Some(name) => container_refusal(alloc, work.registry.as_slice(), name),
        None => Ok(None),
    }
}
