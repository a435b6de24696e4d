//! What an input is.

/// What a job's input is, for the place of a fault.
#[derive(Clone, Copy, Debug)]
pub enum Origin<'a> {
    /// The file of this name.
    File(&'a str),
    /// Standard input.
    StandardInput,
}
