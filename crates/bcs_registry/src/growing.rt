//! Whether a registry has grown into another.
ghost use Rattle.std.specs.Prelude.{◌↔◌, All, IsOk, IsErrOf};
ghost use Rattle.bcs_registry_model.specs.Grows.{Grows, IsFirstGrowthFault};
ghost use Rattle.bcs_registry_model.specs.Order.{NamesRise};
ghost use Rattle.bcs_registry_model.specs.Ranges.{IsOrderly, NumbersRise};

use crate::registry::Registry;
use bcs_registry_model::GrowthFault;
use bcs_registry_model::growth::containers_grow;

impl Registry {
    /// Checks that every container of this registry is in `newer` unchanged, except that enums there may have more
    /// variants. If not, it returns the fault of the first faulty container in ascending order of names. Of two enums,
    /// the first faulty number in ascending order counts.
    pub fn grows(&self, newer: &Registry) -> Result<(), GrowthFault>
        // Containers are in ascending order of names, so the first one has the least name.
        ensures rising { NamesRise self.now }
        // Variants are in ascending order of numbers, so the first one has the least number.
        ensures upwards { All (λ e. NumbersRise e.1) self.now }
        ensures orderly { IsOrderly self.now × IsOrderly newer.now }
        ensures ok { IsOk result ↔ Grows self.now newer.now }
        ensures fault { (e : GrowthFault)
            → IsErrOf result e ↔ IsFirstGrowthFault self.now newer.now e }
    {
        containers_grow(self.containers(), newer.containers())
    }
}
