//! Why a value can't be encoded.
ghost use Rattle.std.specs.Prelude.{◌≡◌};

use std::alloc::{AllocError, AllocFailed};
use thiserror::Error;

/// Why a value has no encoding. If several faults apply, the first in this order is reported, except that `OutOfMemory`
/// depends on when an allocation fails. The message of each variant is its name.
#[derive(Clone, Copy, Debug, PartialEq, Eq, Error)]
pub enum EncodeFault {
    /// The value doesn't fit the format, even if `F32`, `F64` and `CHAR` accept every value.
    #[error("NotOfFormat")]
    NotOfFormat = 1,
    /// Somewhere in the value, the format is `F32`, `F64` or `CHAR`, which have no values. Otherwise the value fits.
    #[error("Unsupported")]
    Unsupported = 5,
    /// Containers nest more deeply than the limits allow.
    #[error("TooDeep")]
    TooDeep = 2,
    /// The value has more nodes than the limits allow.
    #[error("TooManyNodes")]
    TooManyNodes = 8,
    /// A list, a map, a string or a byte string is longer than 2147483647 (BCS specification).
    #[error("TooLong")]
    TooLong = 3,
    /// Two keys of a map are the same value.
    #[error("RepeatedKey")]
    RepeatedKey = 4,
    /// An allocation failed.
    #[error("OutOfMemory")]
    OutOfMemory = 6,
}

impl From<AllocError> for EncodeFault {
    ghost use Rattle.bcs_encode_spec.specs.declared.fault.EncodeFault.TheVariants.{OutOfMemory};

    ghost from_gives = { λ _ fault. fault ≡ OutOfMemory };

    fn from(_: AllocError) -> Self {
        EncodeFault::OutOfMemory
    }
}

impl<T: Drop> From<AllocFailed<T>> for EncodeFault {
    ghost use Rattle.bcs_encode_spec.specs.declared.fault.EncodeFault.TheVariants.{OutOfMemory};

    ghost from_gives = { λ _ fault. fault ≡ OutOfMemory };

    fn from(_: AllocFailed<T>) -> Self {
        EncodeFault::OutOfMemory
    }
}

/// Why the encoding of a value wasn't written. The message of each variant is its name.
#[derive(Clone, Copy, Debug, PartialEq, Eq, Error)]
pub enum WriteFault {
    /// The value has no encoding, and nothing was written.
    #[error("Encode")]
    Encode(EncodeFault),
    /// The sink failed after it had accepted the first `written` bytes of the encoding.
    #[error("Write")]
    Write { written: u64 },
}

impl From<EncodeFault> for WriteFault {
    ghost use Rattle.bcs_encode_spec.specs.declared.fault.WriteFault.TheVariants.{Encode};

    ghost from_gives = { λ fault result. result ≡ Encode fault };

    fn from(fault: EncodeFault) -> Self {
        WriteFault::Encode(fault)
    }
}
