//! The commands of `bcs`.
ghost use Rattle.std.specs.Prelude.{◌≡◌};
ghost use Rattle.bcs_tool_command_line.specs.Options.{command_named};

use crate::options::command_in;

/// A command of `bcs`: the first argument after the program's name.
#[derive(Clone, Copy, Debug, PartialEq, Eq)]
pub enum Command {
    /// `check`: reads a registry and counts its containers.
    Check,
    /// `grows`: finds whether a registry only adds to an older one.
    Grows,
    /// `show`: prints a registry for reading.
    Show,
    /// `example`: makes a value of a format, and prints its JSON text.
    Example,
    /// `schema`: prints the JSON Schema of the JSON texts of a format.
    Schema,
    /// `from-move`: makes a registry from the modules of a Move chain.
    FromMove,
    /// `encode`: turns a value's JSON text into its bytes.
    Encode,
    /// `decode`: turns a value's bytes into its JSON text.
    Decode,
    /// `explain`: prints a value's bytes piece by piece.
    Explain,
    /// `normalise`: turns a value's JSON text into its one normal text.
    Normalise,
    /// `same`: finds whether two JSON texts have the same value.
    Same,
    /// `diff`: finds where two values differ.
    Diff,
    /// `part`: gives the bytes of a part of a value, out of the value's bytes.
    Part,
    /// `scan`: checks the bytes of a value and counts them.
    Scan,
    /// `which`: finds the containers that bytes are exactly one value of.
    Which,
}

impl Command {
    /// All of them, in the order of the help.
    pub(crate) const ALL: &'static [Command] = &[
        Command::Check,
        Command::Grows,
        Command::Show,
        Command::Example,
        Command::Schema,
        Command::FromMove,
        Command::Encode,
        Command::Decode,
        Command::Explain,
        Command::Normalise,
        Command::Same,
        Command::Diff,
        Command::Part,
        Command::Scan,
        Command::Which,
    ];

    /// The command of this name.
    pub fn named(name: &str) -> Option<Command>
        ensures { result ≡ command_named name.now }
    {
        command_in(Command::ALL, name)
    }
}
