//! The parsed arguments of a call.
ghost use Rattle.std.specs.Prelude.{◌≡◌};
ghost use Rattle.bcs_registry_model.specs.View.{shape_of};
ghost use Rattle.bcs_registry_model.specs.WellFormed.{Admits};
ghost use Rattle.bcs_calls.specs.Keeping.{Knows};

use crate::known::Known;
use crate::open_registry::OpenRegistry;
use bcs_registry::{Format, Registry};
use bcs_value::Limits;

/// A registry, a format that it admits, and the limits.
#[derive(Drop)]
pub(crate) struct Asked<'a> {
    pub registry: &'a Registry,
    pub format: &'a Format,
    pub limits: Limits,
    ghost admitted: { Admits registry.now (shape_of format.now) },
}

/// The same during a call on an open registry: the registry, the format, which was taken out of it, and the limits.
#[derive(Drop)]
pub(crate) struct Lent {
    pub opened: Box<OpenRegistry>,
    pub known: Known,
    pub limits: Limits,
    ghost admitted: { Admits opened.value (shape_of known.format) },
}

impl Lent {
    /// Borrows the parsed arguments.
    pub(crate) fn asked(&self) -> Asked<'_>
        ensures { (result.registry.now ≡ self.now.opened.value) × (result.format.now ≡ self.now.known.format)
            × (result.limits ≡ self.now.limits) }
    {
        Asked {
            registry: self.opened.registry(),
            format: &self.known.format,
            limits: self.limits,
        }
    }

    /// Returns the registry, which caches the format.
    pub(crate) fn back(self) -> Box<OpenRegistry>
        requires { Knows self.opened.value self.known }
        ensures { result.value ≡ self.opened.value }
    {
        let Lent {
            mut opened,
            known,
            ..
        } = self;
        opened.keep(known);
        opened
    }
}
