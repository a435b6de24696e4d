//! The ways to write the steps to a part.

/// How the steps to a part are written.
#[derive(Clone, Copy)]
pub(crate) enum Notation {
    /// By numbers: `inner/1/inner`.
    Path,
    /// By names, as `explain` prints them: `.payload::EntryFunction`.
    Name,
    /// As a JSON Pointer: `/payload/EntryFunction`.
    Pointer,
}

impl Notation {
    /// The argument that has the steps.
    pub(crate) fn argument(self) -> &'static str {
        match self {
            Notation::Path => "PATH",
            Notation::Name => "--name",
            Notation::Pointer => "--pointer",
        }
    }

    /// The step into an option.
    pub(crate) fn option_step(self) -> &'static str {
        match self {
            Notation::Path => "inner",
            Notation::Name => "?",
            Notation::Pointer => "some",
        }
    }
}
