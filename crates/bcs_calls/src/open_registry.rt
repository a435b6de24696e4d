//! An open registry, with the format of the last call.
ghost use Rattle.std.specs.Prelude.{◌≡◌, ◌≢◌, IfErr, IfOk, IfSome};
ghost use Rattle.bcs_registry_model.specs.Ranges.{IsOrderly};
ghost use Rattle.bcs_registry_model.specs.WellFormed.{IsWellFormed};
ghost use Rattle.bcs_registry.specs.Faults.{IsLeastFault};
ghost use Rattle.bcs_registry_json.specs.Text.{WritesRegistry};
ghost use Rattle.bcs_calls.specs.Keeping.{Knows};
ghost use Rattle.bcs_calls.specs.Registries.{RefusesFormat};

use crate::answer::Answer;
use crate::known::Known;
use crate::registries::read_known;
use bcs_registry::{Registry, RegistryFault};
use std::alloc::Global;
use std::marker::Model;

/// An open registry. It caches the format of the last call, so that the next call needn't parse it again. Contracts
/// only mention the registry.
#[derive(Drop)]
pub struct OpenRegistry {
    registry: Registry,
    last: Option<Known>,
}

impl Model for OpenRegistry {
    ghost use Rattle.std.specs.Prelude.{IfSome};
    ghost use Rattle.std.specs.Coded.{codes};
    ghost use Rattle.bcs_registry_model.specs.Container.{Entries};
    ghost use Rattle.bcs_registry.specs.Codes.{shape_coded, shapes_coded};
    ghost use Rattle.bcs_calls.specs.Keeping.{Knows};

    ghost Value = { Entries };

    ghost coded = { Prim.hlevel (codes, shape_coded, shapes_coded) };

    ghost view = { λ o. o.registry };

    ghost invariant = { λ o. IfSome o.last (λ known. Knows o.registry known) };
}

/// Opens the registry that a JSON document represents.
pub(crate) fn open_registry(alloc: Global, text: &[u8]) -> Result<Box<OpenRegistry>, RegistryFault>
    ensures opened { IfOk result (λ b. WritesRegistry text.now b.value × IsWellFormed b.value × IsOrderly b.value) }
    ensures fault { IfErr result (λ e. e ≢ RegistryFault.OutOfMemory → IsLeastFault text.now e) }
{
    let registry = Registry::read(alloc, text)?;
    match Box::new(alloc, OpenRegistry::of(registry)) {
        Ok(opened) => Ok(opened),
        Err(_) => Err(RegistryFault::OutOfMemory),
    }
}

impl OpenRegistry {
    /// This registry, without a cached format.
    fn of(registry: Registry) -> OpenRegistry
        ensures { result ≡ registry }
    {
        OpenRegistry {
            registry,
            last: None,
        }
    }

    /// The registry.
    pub(crate) fn registry(&self) -> &Registry
        ensures { result.now ≡ self.now }
    {
        &self.registry
    }

    /// Returns the format that this JSON represents, or its refusal. If the cached format has the same JSON, it is taken
    /// out; otherwise the JSON is parsed, and the cached format stays.
    pub(crate) fn format(&mut self, alloc: Global, text: &[u8]) -> Result<Known, Answer>
        ensures ok { IfOk result (λ known. Knows self.old known × (known.text.items ≡ text.now)) }
        ensures err { IfErr result (λ a. RefusesFormat self.old text.now a) }
        ensures same { self.new ≡ self.old }
    {
        if let Some(known) = self.take_last(text) {
            return Ok(known);
        }
        read_known(alloc, &self.registry, text)
    }

    fn take_last(&mut self, text: &[u8]) -> Option<Known>
        ensures some { IfSome result (λ known. Knows self.old known × (known.text.items ≡ text.now)) }
        ensures same { self.new ≡ self.old }
    {
        let Some(last) = self.last.take() else {
            return None;
        };
        if last.is_of(text) {
            return Some(last);
        }
        self.last = Some(last);
        None
    }

    /// Caches a format, replacing the last one.
    pub(crate) fn keep(&mut self, known: Known)
        requires { Knows self.old known }
        ensures { self.new ≡ self.old }
    {
        self.last = Some(known);
    }
}
