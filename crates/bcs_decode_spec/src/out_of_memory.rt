//! Allocation errors as decoding faults.

use crate::decode_fault::DecodeFault;
use std::alloc::{AllocError, AllocFailed};

impl From<AllocError> for DecodeFault {
    ghost use Rattle.std.specs.Prelude.{◌≡◌};
    ghost use Rattle.bcs_decode_spec.specs.declared.decode_fault.DecodeFault.TheVariants.{OutOfMemory};

    ghost from_gives = { λ _ e. e ≡ OutOfMemory };

    fn from(_: AllocError) -> Self {
        DecodeFault::OutOfMemory
    }
}

impl<T: Drop> From<AllocFailed<T>> for DecodeFault {
    ghost use Rattle.std.specs.Prelude.{◌≡◌};
    ghost use Rattle.bcs_decode_spec.specs.declared.decode_fault.DecodeFault.TheVariants.{OutOfMemory};

    ghost from_gives = { λ _ e. e ≡ OutOfMemory };

    fn from(_: AllocFailed<T>) -> Self {
        DecodeFault::OutOfMemory
    }
}
