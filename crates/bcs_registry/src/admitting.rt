//! Which formats can be used with a registry.
ghost use Rattle.std.specs.Prelude.{◌≡◌, OnOk, IfErr};
ghost use Rattle.bcs_registry_model.specs.Breaks.{FormatBreaks};
ghost use Rattle.bcs_registry_model.specs.Ranges.{IsOrderly};
ghost use Rattle.bcs_registry_model.specs.View.{shape_of};
ghost use Rattle.bcs_registry_model.specs.WellFormed.{admits, Admits};

use crate::registry::Registry;
use bcs_registry_model::known::is_known;
use bcs_registry_model::levels::has_few_levels;
use bcs_registry_model::{Format, RegistryFault};

impl Registry {
    /// Whether the registry admits the format: at most 32 levels, and each `TypeName` in it names a container.
    pub fn admits(&self, format: &Format) -> bool
        ensures answer { result ≡ admits self.now (shape_of format.now) }
        ensures orderly { IsOrderly self.now }
    {
        let containers = self.containers();
        has_few_levels(format) && is_known(format, containers)
    }

    /// Refuses a format that isn't admitted. If it breaks both rules, `TooNested` is reported, and not `UnknownName`.
    pub(crate) fn validate_format(&self, format: &Format) -> Result<(), RegistryFault>
        ensures ok { OnOk result (Admits self.now (shape_of format.now)) }
        ensures fault { IfErr result (λ e. FormatBreaks self.now (shape_of format.now) e) }
    {
        if !has_few_levels(format) {
            return Err(RegistryFault::TooNested);
        }
        if !is_known(format, self.containers()) {
            return Err(RegistryFault::UnknownName);
        }
        Ok(())
    }
}
