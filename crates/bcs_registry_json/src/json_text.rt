//! Parses the JSON of a registry.
ghost use Rattle.std.specs.Prelude.{◌≡◌, ◌≢◌, IfErr, IfOk};
ghost use Rattle.serde_json.specs.View.{view};
ghost use Rattle.bcs_registry_json.specs.Json.{IsJson, IsNotJson};

use crate::{TextFault, read_json};
use bcs_registry_model::RegistryFault;
use serde_json::Value;
use std::alloc::Global;

/// Parses the JSON of a registry or of a format.
pub fn registry_json(alloc: Global, text: &[u8]) -> Result<Value, RegistryFault>
    ensures ok { IfOk result (λ v. IsJson text.now (view v)) }
    ensures fault { IfErr result (λ e. e ≢ RegistryFault.OutOfMemory
        → (e ≡ RegistryFault.NotJson) × IsNotJson text.now) }
{
    match read_json(alloc, text) {
        Ok(value) => Ok(value),
        Err(TextFault::NotJson) => Err(RegistryFault::NotJson),
        Err(TextFault::OutOfMemory) => Err(RegistryFault::OutOfMemory),
    }
}
