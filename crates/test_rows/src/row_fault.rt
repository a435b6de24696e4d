//! Why a row has no answer.

use bcs_decode_parts::PathFault;
use bcs_registry::RegistryFault;
use hex::FromHexError;
use std::alloc::{AllocError, AllocFailed};
use thiserror::Error;

/// Why a row has no answer. Its message is printed instead.
#[derive(Debug, Drop, Error)]
pub enum RowFault {
    /// The row isn't a known request.
    #[error("not understood")]
    NotUnderstood,
    /// The row's registry or format is refused.
    #[error("{0}")]
    Registry(RegistryFault),
    /// A call disagrees with the others of the row.
    #[error("{0} disagrees")]
    Disagreement(&'static str),
    /// Memory ran out.
    #[error("out of memory")]
    OutOfMemory,
}

impl From<AllocError> for RowFault {
    fn from(_: AllocError) -> RowFault {
        RowFault::OutOfMemory
    }
}

impl<T: Drop> From<AllocFailed<T>> for RowFault {
    fn from(_: AllocFailed<T>) -> RowFault {
        RowFault::OutOfMemory
    }
}

impl From<RegistryFault> for RowFault {
    fn from(fault: RegistryFault) -> RowFault {
        RowFault::Registry(fault)
    }
}

impl From<FromHexError> for RowFault {
    fn from(error: FromHexError) -> RowFault {
        match error {
            FromHexError::OutOfMemory => RowFault::OutOfMemory,
            _ => RowFault::NotUnderstood,
        }
    }
}

impl From<PathFault> for RowFault {
    fn from(fault: PathFault) -> RowFault {
        match fault {
            PathFault::BadPath => RowFault::NotUnderstood,
            PathFault::OutOfMemory => RowFault::OutOfMemory,
        }
    }
}

/// The result of a call. If memory ran out, that is the answer of the whole row.
pub fn granted<T: Drop, F: Copy + Drop + PartialEq>(
    answer: Result<T, F>,
    no_memory: F,
) -> Result<Result<T, F>, RowFault> {
    match answer {
        Ok(given) => Ok(Ok(given)),
        Err(fault) if fault == no_memory => Err(RowFault::OutOfMemory),
        Err(fault) => Ok(Err(fault)),
    }
}

/// Checks that a call agrees with the others of the row.
pub fn agree(is_so: bool, call: &'static str) -> Result<(), RowFault> {
    if is_so {
        Ok(())
    } else {
        Err(RowFault::Disagreement(call))
    }
}
