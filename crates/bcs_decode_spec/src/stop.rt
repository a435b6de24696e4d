//! Where and why decoding stops.

use crate::reason::Reason;

/// Where and why bytes stop being a value. The place is a byte offset from the start of the value:
///
/// - `EndOfInput`: the length of the input;
/// - `BadBool`, `BadOption`: the invalid byte;
/// - `LongForm`, `NumberTooLarge`, `LengthTooLarge`, `UnknownVariant`: the first byte of the number;
/// - `BadUtf8`: the end of the longest valid prefix of the string;
/// - `KeyOrder`, `KeyRepeated`: the first byte of the later key;
/// - `TooDeep`, `TooManyNodes`, `Unsupported`: where the container, the node or the value would start;
/// - `TrailingBytes`: the first byte after the value.
#[derive(Clone, Copy, Debug, Drop, PartialEq, Eq)]
pub struct Stop {
    /// Why decoding stopped.
    pub reason: Reason,
    /// The byte offset where it stopped.
    pub place: u64,
}
