//! Validates a job before its input is read: its registries, then the format, and then the path.
ghost use Rattle.std.specs.Prelude.{◌≡◌, ◌≢◌, ℕ, length, string_bytes, Err, IfOk, IfErr};
ghost use Rattle.bcs_registry_model.specs.Container.{Entries};
ghost use Rattle.bcs_registry_model.specs.Shape as shape;
ghost use Rattle.bcs_registry_model.specs.View.{shape_of};
ghost use Rattle.bcs_registry_model.specs.WellFormed.{Admits};
ghost use Rattle.bcs_registry_model.specs.declared.fault.RegistryFault.TheVariants.{OutOfMemory};
ghost use Rattle.bcs_decode_parts.specs.PathSteps.{all_spelled};
ghost use Rattle.bcs_tool_answers.specs.Notations.{SpellsNoSteps};
ghost use Rattle.bcs_tool_answers.specs.Validating.{Asks, IsFormatWord, IsPathOf, IsRegistry, RefusesCheck, RefusesEarly, RefusesFormatWord, RefusesFormatted, RefusesGrowth, command_of, is_json_word};

use crate::job_fault::JobFault;
use crate::notations::read_steps;
use crate::value_command::ValueCommand;
use bcs_decode_parts::{PathFault, PathStep};
use bcs_registry::{Format, Registry, RegistryFault};
use bcs_tool_command_line::{Command, Work};
use std::alloc::{AllocError, Global};

/// The number of containers in the registry.
pub fn validate_check(alloc: Global, work: &Work) -> Result<usize, JobFault>
    ensures ok { IfOk result (λ count. (registry : Entries) × IsRegistry work.now.registry.items registry
        × (count ≡ length registry)) }
    ensures fault { IfErr result (λ e. e ≢ JobFault.Registry OutOfMemory → RefusesCheck work.now e) }
{
    let registry = Registry::read(alloc, work.registry.as_slice())?;
    Ok(registry.len())
}

/// The older and the newer registry. A fault of the older comes before one of the newer.
pub fn validate_pair(alloc: Global, work: &Work) -> Result<(Registry, Registry), JobFault>
    ensures older { IfOk result (λ p. IsRegistry work.now.registry.items p.0) }
    ensures newer { IfOk result (λ p. IsRegistry work.now.second.items p.1) }
    ensures fault { IfErr result (λ e. e ≢ JobFault.Registry OutOfMemory → RefusesGrowth work.now e) }
{
    let older = Registry::read(alloc, work.registry.as_slice())?;
    let newer = Registry::read(alloc, work.second.as_slice())?;
    Ok((older, newer))
}

/// The parsed request of a job: its command, the registry, the format of its values, and the steps to a part of them.
#[derive(Drop)]
pub struct Asked {
    pub command: ValueCommand,
    pub registry: Registry,
    pub format: Format,
    /// The steps of PATH; empty if the command has no PATH, or if it has names or a pointer instead.
    pub path: Vec<PathStep>,
}

/// The job's parsed request. The registry's fault comes before the format's, and the format's before that of PATH.
pub fn validate_asked(alloc: Global, work: &Work, command: ValueCommand) -> Result<Asked, JobFault>
    requires { work.now.command ≡ command_of command }
    ensures command { IfOk result (λ asked. work.now.command ≡ command_of asked.command) }
    ensures ok { IfOk result (λ asked. Asks work.now asked.registry (shape_of asked.format)) }
    ensures admitted { IfOk result (λ asked. Admits asked.registry (shape_of asked.format)) }
    ensures path { IfOk result (λ asked. IsPathOf work.now.command work.now.options.notation (string_bytes work.now.path) (all_spelled asked.path.items)) }
    ensures fault { IfErr result (λ e. e ≢ JobFault.Registry OutOfMemory → RefusesEarly work.now e) }
{
    let (registry, format) = validate_formatted(alloc, work)?;
    let path = validate_path(alloc, work)?;
    Ok(Asked {
        command,
        registry,
        format,
        path,
    })
}

/// The registry and the format of a job. The registry's fault comes before the format's.
pub fn validate_formatted(alloc: Global, work: &Work) -> Result<(Registry, Format), JobFault>
    ensures registry { IfOk result (λ p. IsRegistry work.now.registry.items p.0) }
    ensures format { IfOk result (λ p. IsFormatWord p.0 (string_bytes work.now.format) (shape_of p.1)) }
    ensures fault { IfErr result (λ e. e ≢ JobFault.Registry OutOfMemory → RefusesFormatted work.now e) }
{
    let registry = Registry::read(alloc, work.registry.as_slice())?;
    let format = validate_format(alloc, &registry, work.format.as_str())?;
    Ok((registry, format))
}

// The steps of the job's PATH; empty if the command has no PATH, or if it has names or a pointer instead.
fn validate_path(alloc: Global, work: &Work) -> Result<Vec<PathStep>, PathFault>
    ensures ok { IfOk result (λ path. IsPathOf work.now.command work.now.options.notation (string_bytes work.now.path) (all_spelled path.items)) }
    ensures bad { result ≡ Err PathFault.BadPath → (work.now.command ≡ Command.Part) × SpellsNoSteps work.now.options.notation (string_bytes work.now.path) }
{
    match work.command {
        Command::Part => read_steps(alloc, work.options.notation, work.path.as_str()),
        _ => Ok(Vec::new(alloc)),
    }
}

// The format that an argument gives: as JSON, or as a container's name.
fn validate_format(alloc: Global, registry: &Registry, word: &str) -> Result<Format, RegistryFault>
    ensures ok { IfOk result (λ format. IsFormatWord registry.now word.now (shape_of format)) }
    ensures fault { IfErr result (λ e. e ≢ OutOfMemory → RefusesFormatWord registry.now word.now e) }
{
    if begins_json(word) {
        return registry.read_format(alloc, word.as_bytes());
    }
    match registry.container(word) {
        Some(_) => named(alloc, word),
        None => Err(RegistryFault::UnknownName),
    }
}

// The format of a container's values.
fn named(alloc: Global, name: &str) -> Result<Format, RegistryFault>
    ensures ok { IfOk result (λ format. shape_of format ≡ shape.name name.now) }
    ensures fault { IfErr result (λ e. e ≡ OutOfMemory) }
{
    match String::from_str(alloc, name) {
        Ok(name) => Ok(Format::TypeName(name)),
        Err(AllocError) => Err(RegistryFault::OutOfMemory),
    }
}

// Whether a format argument is JSON rather than the name of a container.
fn begins_json(word: &str) -> bool
    ensures { result ≡ is_json_word word.now }
{
    matches!(word.as_bytes().first(), Some(b'{' | b'"'))
}
