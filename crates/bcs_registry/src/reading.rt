//! Reads registries and formats from JSON.
ghost use Rattle.std.specs.Prelude.{◌≡◌, ◌≢◌, IfErr, IfOk};
ghost use Rattle.serde_json.specs.View.{view};
ghost use Rattle.bcs_registry.specs.Faults.{IsLeastFault, IsLeastFormatFault};
ghost use Rattle.bcs_registry_model.specs.Ranges.{IsOrderly};
ghost use Rattle.bcs_registry_json.specs.Parts.{IsLeastFaultBy};
ghost use Rattle.bcs_registry_json.specs.Shaped.{is_format, is_registry};
ghost use Rattle.bcs_registry_json.specs.Text.{IsFormatText, IsRegistryText, WritesFormat, WritesRegistry};
ghost use Rattle.bcs_registry_model.specs.View.{entries_of, shape_of};
ghost use Rattle.bcs_registry_model.specs.WellFormed.{Admits, IsWellFormed};

use crate::checking::checked;
use crate::registry::Registry;
use bcs_registry_json::container_text::containers_from;
use bcs_registry_json::format_text::format_from;
use bcs_registry_json::json_text::registry_json;
use bcs_registry_json::one_by_one::containers_one_by_one;
use bcs_registry_json::shaped::{is_format_shaped, is_registry_shaped};
use bcs_registry_model::containers::Containers;
use bcs_registry_model::{Container, Format, RegistryFault};
use serde_json::Value;
use std::alloc::Global;
use std::collections::BTreeMap;

impl Registry {
    /// Reads a registry from JSON. If the JSON isn't a well-formed registry, it reports the least fault that occurs
    /// anywhere in it, in the order of [`RegistryFault`]: `NotJson`, `BadShape`, `BadNumber`, `TooNested`,
    /// `RepeatedName`, `UnknownName`. If an allocation fails, it reports `OutOfMemory` instead of any fault that it
    /// would have found later.
    pub fn read(alloc: Global, text: &[u8]) -> Result<Registry, RegistryFault>
        ensures ok { IfOk result (λ r. WritesRegistry text.now r × IsWellFormed r) }
        ensures orderly { IfOk result IsOrderly }
        ensures fault { IfErr result (λ e. e ≢ RegistryFault.OutOfMemory → IsLeastFault text.now e) }
    {
        let containers = match containers_one_by_one(alloc, text) {
            Err(RegistryFault::OutOfMemory) => return Err(RegistryFault::OutOfMemory),
            // The first fault found need not be the least one.
            Err(_) => containers_at_once(alloc, text)?,
            Ok(containers) => containers,
        };
        checked(alloc, Containers::of(alloc, containers)?)
    }

    /// Reads a format from JSON, which this registry must admit. Otherwise it reports the least fault that occurs
    /// anywhere in the JSON: `NotJson`, `BadShape`, `BadNumber`, `TooNested`, `UnknownName`. `OutOfMemory` is as in
    /// [`Registry::read`].
    pub fn read_format(&self, alloc: Global, text: &[u8]) -> Result<Format, RegistryFault>
        ensures ok { IfOk result (λ f. WritesFormat text.now (shape_of f) × Admits self.now (shape_of f)) }
        ensures fault { IfErr result (λ e. e ≢ RegistryFault.OutOfMemory
            → IsLeastFormatFault self.now text.now e) }
    {
        let value = registry_json(alloc, text)?;
        let format = written_format(alloc, &value)?;
        self.validate_format(&format)?;
        Ok(format)
    }
}

/// Reads the containers of a registry after parsing the whole document.
fn containers_at_once(
    alloc: Global,
    text: &[u8],
) -> Result<BTreeMap<String, Container>, RegistryFault>
    ensures ok { IfOk result (λ m. WritesRegistry text.now (entries_of m.entries)) }
    ensures fault { IfErr result (λ e. e ≢ RegistryFault.OutOfMemory → IsLeastFault text.now e) }
{
    let value = registry_json(alloc, text)?;
    written_containers(alloc, &value)
}

/// Reads the containers of a registry from parsed JSON, and reports the least fault.
fn written_containers(
    alloc: Global,
    value: &Value,
) -> Result<BTreeMap<String, Container>, RegistryFault>
    ensures ok { IfOk result (λ m. IsRegistryText (view value.now) (entries_of m.entries)) }
    ensures fault { IfErr result (IsLeastFaultBy (λ loose. is_registry loose (view value.now))) }
{
    match containers_from(alloc, value) {
        // A later part may have a wrong shape, which is the lesser fault.
        Err(RegistryFault::BadNumber) => if is_registry_shaped(value) {
            Err(RegistryFault::BadNumber)
        } else {
            Err(RegistryFault::BadShape)
        },
        outcome => outcome,
    }
}

/// Reads a format from parsed JSON, and reports the least fault.
fn written_format(alloc: Global, value: &Value) -> Result<Format, RegistryFault>
    ensures ok { IfOk result (λ f. IsFormatText (view value.now) (shape_of f)) }
    ensures fault { IfErr result (IsLeastFaultBy (λ loose. is_format loose (view value.now))) }
{
    match format_from(alloc, value) {
        // A later part may have a wrong shape, which is the lesser fault.
        Err(RegistryFault::BadNumber) => if is_format_shaped(value) {
            Err(RegistryFault::BadNumber)
        } else {
            Err(RegistryFault::BadShape)
        },
        outcome => outcome,
    }
}
