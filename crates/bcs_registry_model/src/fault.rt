//! Why JSON isn't a registry, or isn't a format of one.
ghost use Rattle.std.specs.Prelude.{◌≡◌};
ghost use Rattle.bcs_registry_model.specs.FaultNames.{registry_fault_name};

use std::alloc::{AllocError, AllocFailed};
use thiserror::Error;

/// Why JSON is refused: the first fault in this order that occurs anywhere in it. The message is the variant's name.
#[derive(Clone, Copy, Debug, Drop, PartialEq, Eq, Error)]
#[error("{}", self.name())]
pub enum RegistryFault {
    /// `serde_json` rejects the input.
    NotJson = 1,
    /// The JSON doesn't have the shape of a registry, or of a format.
    BadShape,
    /// A variant number isn't plain decimal below 2^32, or a `SIZE` isn't an integer from 0 to 2^64 - 1.
    BadNumber,
    /// A format has more than 32 levels.
    TooNested,
    /// Two fields of one struct or struct payload, or two variants of one enum, have the same name.
    RepeatedName,
    /// A `TYPENAME` isn't the name of a container.
    UnknownName,
    /// An allocation failed.
    OutOfMemory,
}

impl RegistryFault {
    /// The name of the variant.
    pub fn name(self) -> &'static str
        ensures { result.now ≡ registry_fault_name self }
    {
        match self {
            RegistryFault::NotJson => "NotJson",
            RegistryFault::BadShape => "BadShape",
            RegistryFault::BadNumber => "BadNumber",
            RegistryFault::TooNested => "TooNested",
            RegistryFault::RepeatedName => "RepeatedName",
            RegistryFault::UnknownName => "UnknownName",
            RegistryFault::OutOfMemory => "OutOfMemory",
        }
    }
}

impl From<AllocError> for RegistryFault {
    ghost use Rattle.bcs_registry_model.specs.declared.fault.RegistryFault.TheVariants.{OutOfMemory};

    ghost from_gives = { λ _ fault. fault ≡ OutOfMemory };

    fn from(_: AllocError) -> RegistryFault {
        RegistryFault::OutOfMemory
    }
}

impl<T: Drop> From<AllocFailed<T>> for RegistryFault {
    ghost use Rattle.bcs_registry_model.specs.declared.fault.RegistryFault.TheVariants.{OutOfMemory};

    ghost from_gives = { λ _ fault. fault ≡ OutOfMemory };

    fn from(_: AllocFailed<T>) -> RegistryFault {
        RegistryFault::OutOfMemory
    }
}
