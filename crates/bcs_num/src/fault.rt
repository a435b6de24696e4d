//! Why bytes aren't a valid number.

use thiserror::Error;

/// Why no number could be read. The message of each variant is its name.
#[derive(Clone, Copy, Debug, PartialEq, Eq, Error)]
pub enum NumFault {
    /// The bytes end inside the number.
    #[error("EndOfInput")]
    EndOfInput = 1,
    /// A ULEB128 number ends in `00` after another byte, so it has a shorter form.
    #[error("LongForm")]
    LongForm = 4,
    /// A ULEB128 number is above 4294967295.
    #[error("NumberTooLarge")]
    NumberTooLarge = 5,
}
