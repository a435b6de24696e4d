//! Checks whether containers form a well-formed registry.
ghost use Rattle.std.specs.Prelude.{◌≡◌, ◌≢◌, ◌↔◌, IfOk, IfErr, IsErrOf};
ghost use Rattle.bcs_registry_model.specs.Breaks.{Breaks};
ghost use Rattle.bcs_registry_model.specs.Ranges.{IsOrderly};
ghost use Rattle.bcs_registry_model.specs.View.{entries_of};
ghost use Rattle.bcs_registry_model.specs.WellFormed.{IsWellFormed};

use crate::registry::Registry;
use bcs_registry_model::RegistryFault;
use bcs_registry_model::containers::Containers;
use bcs_registry_model::distinct::have_distinct_names;
use bcs_registry_model::rule::{Rule, all_keep};
use bcs_registry_model::variant_numbers::numbers_by_name;
use std::alloc::Global;

/// Builds a registry from the containers if they are well-formed. Otherwise it reports the first of these faults that
/// occurs anywhere in them: `TooNested`, `RepeatedName`, `UnknownName`. Levels are checked before anything is
/// allocated, so `TooNested` is reported whenever it applies.
pub(crate) fn checked(alloc: Global, containers: Containers) -> Result<Registry, RegistryFault>
    requires { IsOrderly (entries_of containers.entries.items) }
    ensures ok { IfOk result (λ r. (r ≡ entries_of containers.entries.items) × IsWellFormed r) }
    ensures fault { IfErr result (λ e. e ≢ RegistryFault.OutOfMemory
        → Breaks (entries_of containers.entries.items) e) }
    ensures too_nested { IsErrOf result RegistryFault.TooNested
        ↔ Breaks (entries_of containers.entries.items) RegistryFault.TooNested }
{
    if !all_keep(&containers, Rule::FewLevels) {
        return Err(RegistryFault::TooNested);
    }
    match have_distinct_names(alloc, &containers) {
        Ok(true) => {}
        Ok(false) => return Err(RegistryFault::RepeatedName),
        Err(_) => return Err(RegistryFault::OutOfMemory),
    }
    if !all_keep(&containers, Rule::KnownNames) {
        return Err(RegistryFault::UnknownName);
    }
    // This allocation comes last, so that its failure can't hide a broken rule.
    let numbers = numbers_by_name(alloc, &containers)?;
    Ok(Registry::of(containers, numbers))
}
