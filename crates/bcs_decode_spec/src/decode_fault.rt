//! Why decoding fails.

use crate::stop::Stop;
use thiserror::Error;

/// Why no value was decoded. The message is the name of the variant.
#[derive(Clone, Copy, Debug, Drop, PartialEq, Eq, Error)]
pub enum DecodeFault {
    /// The bytes aren't a value: decoding stopped at this place, for this reason.
    #[error("Stop")]
    Stop(Stop),
    /// The source failed.
    #[error("Read")]
    Read,
    /// An allocation failed.
    #[error("OutOfMemory")]
    OutOfMemory,
}
