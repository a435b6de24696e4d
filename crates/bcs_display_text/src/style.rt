//! The output form of pieces, and whether it is colored.

/// What a line contains about the field path of a piece.
#[derive(Clone, Copy, Debug, PartialEq, Eq)]
pub enum Form {
    /// The field path: the names of all steps from the whole value down.
    Ways,
    /// The field path, followed by the PATH argument for `bcs part`.
    Paths,
    /// Only the last step, indented by the number of steps before it.
    Tree,
    /// One JSON object per line.
    Json,
}

/// Whether the output contains color codes for a terminal. JSON never does.
#[derive(Clone, Copy, Debug, PartialEq, Eq)]
pub enum Paint {
    Plain,
    Colored,
}

/// How pieces are printed.
#[derive(Clone, Copy, Debug, PartialEq, Eq)]
pub struct Style {
    pub form: Form,
    pub paint: Paint,
}
