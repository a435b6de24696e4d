//! Why a value can't be printed as JSON.
ghost use Rattle.std.specs.Prelude.{◌≡◌};

use bcs_encode::EncodeFault;
use std::alloc::AllocError;
use thiserror::Error;

/// Why a value has no JSON document. An encoding fault (see `EncodeFault`) comes before `TooNested`. The message is the
/// name of the variant.
#[derive(Clone, Copy, Debug, PartialEq, Eq, Error)]
pub enum PrintFault {
    #[error("NotOfFormat")]
    NotOfFormat = 1,
    #[error("Unsupported")]
    Unsupported = 5,
    #[error("TooDeep")]
    TooDeep = 2,
    #[error("TooManyNodes")]
    TooManyNodes = 8,
    #[error("TooLong")]
    TooLong = 3,
    #[error("RepeatedKey")]
    RepeatedKey = 4,
    /// The arrays and objects of the document would nest more than 100 deep.
    #[error("TooNested")]
    TooNested = 7,
    #[error("OutOfMemory")]
    OutOfMemory = 6,
}

impl From<EncodeFault> for PrintFault {
    ghost use Rattle.bcs_json.specs.Printing.{fault_of};

    ghost from_gives = { λ fault result. result ≡ fault_of fault };

    fn from(fault: EncodeFault) -> Self {
        match fault {
            EncodeFault::NotOfFormat => PrintFault::NotOfFormat,
            EncodeFault::Unsupported => PrintFault::Unsupported,
            EncodeFault::TooDeep => PrintFault::TooDeep,
            EncodeFault::TooManyNodes => PrintFault::TooManyNodes,
            EncodeFault::TooLong => PrintFault::TooLong,
            EncodeFault::RepeatedKey => PrintFault::RepeatedKey,
            EncodeFault::OutOfMemory => PrintFault::OutOfMemory,
        }
    }
}

impl From<AllocError> for PrintFault {
    ghost use Rattle.bcs_json.specs.declared.print_fault.PrintFault.TheVariants.{OutOfMemory};

    ghost from_gives = { λ _ result. result ≡ OutOfMemory };

    fn from(_: AllocError) -> Self {
        PrintFault::OutOfMemory
    }
}
