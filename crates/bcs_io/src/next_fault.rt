//! Why the next line can't be read.
use thiserror::Error;

/// Why the next line can't be read. The message is the name of the variant.
#[derive(Clone, Copy, Debug, Drop, PartialEq, Eq, Error)]
pub enum NextFault {
    /// The source failed.
    #[error("Read")]
    Read,
    /// The line is longer than the limit.
    #[error("TooLong")]
    TooLong,
    /// An allocation failed.
    #[error("OutOfMemory")]
    OutOfMemory,
}
