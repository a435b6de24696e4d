//! How PATH of `part` is written.

/// How the command line names a part of a value.
#[derive(Clone, Copy, Debug, PartialEq, Eq)]
pub enum Notation {
    /// PATH: steps joined by `/`, with fields as numbers.
    Path,
    /// `--name`: the way as `explain` prints it, with the names of fields.
    Names,
    /// `--pointer`: a JSON pointer into the value's JSON.
    Pointer,
}
