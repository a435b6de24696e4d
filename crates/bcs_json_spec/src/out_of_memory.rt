//! Converts failed allocations to faults of JSON.

use crate::json_fault::JsonFault;
use std::alloc::{AllocError, AllocFailed};

impl From<AllocError> for JsonFault {
    ghost use Rattle.std.specs.Prelude.{◌≡◌};
    ghost use Rattle.bcs_json_spec.specs.declared.json_fault.JsonFault.TheVariants.{OutOfMemory};

    ghost from_gives = { λ _ e. e ≡ OutOfMemory };

    fn from(_: AllocError) -> Self {
        JsonFault::OutOfMemory
    }
}

impl<T: Drop> From<AllocFailed<T>> for JsonFault {
    ghost use Rattle.std.specs.Prelude.{◌≡◌};
    ghost use Rattle.bcs_json_spec.specs.declared.json_fault.JsonFault.TheVariants.{OutOfMemory};

    ghost from_gives = { λ _ e. e ≡ OutOfMemory };

    fn from(_: AllocFailed<T>) -> Self {
        JsonFault::OutOfMemory
    }
}
