//! Whether an answer is printed in color.

/// What the command line requests.
#[derive(Clone, Copy, Debug, PartialEq, Eq)]
pub enum Color {
    /// Nothing, or `--color=auto`: the output decides.
    Auto,
    /// `--color` or `--color=always`.
    Always,
    /// `--no-color` or `--color=never`.
    Never,
}
