//! Why a registry doesn't grow into another.
ghost use Rattle.std.specs.Prelude.{◌≡◌};
ghost use Rattle.bcs_registry_model.specs.FaultNames.{growth_fault_name};

use thiserror::Error;

/// Why a newer registry doesn't extend an older one: the fault of the first faulty container of the older registry, in
/// ascending order of names. The message is the name of the variant.
#[derive(Clone, Copy, Debug, Drop, PartialEq, Eq, Error)]
#[error("{}", self.name())]
pub enum GrowthFault {
    /// The newer registry has no container of this name.
    Missing = 1,
    /// The newer container differs, and they aren't both enums.
    Changed,
    /// Both are enums, and the first faulty number, in ascending order, is missing in the newer one.
    VariantMissing,
    /// Both are enums, and at the first faulty number, in ascending order, the newer one has another name or payload.
    VariantChanged,
}

impl GrowthFault {
    /// The name of the variant.
    pub fn name(self) -> &'static str
        ensures { result.now ≡ growth_fault_name self }
    {
        match self {
            GrowthFault::Missing => "Missing",
            GrowthFault::Changed => "Changed",
            GrowthFault::VariantMissing => "VariantMissing",
            GrowthFault::VariantChanged => "VariantChanged",
        }
    }
}
