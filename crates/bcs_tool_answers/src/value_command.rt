//! The commands that have a format and an input. The others are answered before any input is read.
ghost use Rattle.std.specs.Prelude.{◌≡◌, MatchOption, false};
ghost use Rattle.bcs_tool_answers.specs.Validating.{command_of, works_on_values};

use bcs_tool_command_line::Command;

/// A command on values of a format: its input is a JSON text, or gives the bytes of a value.
#[derive(Clone, Copy)]
pub enum ValueCommand {
    Encode,
    Normalise,
    Same,
    Diff,
    Bytes(BytesCommand),
}

/// A command whose input gives the bytes of a value.
#[derive(Clone, Copy)]
pub enum BytesCommand {
    Decode,
    Explain,
    Part,
    Scan,
    Which,
}

/// The command as one on values; `None` if it has no input.
pub fn value_command_of(command: Command) -> Option<ValueCommand>
    ensures { MatchOption result (works_on_values command ≡ false) (λ asked. command ≡ command_of asked) }
{
    match command {
        Command::Encode => Some(ValueCommand::Encode),
        Command::Normalise => Some(ValueCommand::Normalise),
        Command::Same => Some(ValueCommand::Same),
        Command::Diff => Some(ValueCommand::Diff),
        Command::Decode => Some(ValueCommand::Bytes(BytesCommand::Decode)),
        Command::Explain => Some(ValueCommand::Bytes(BytesCommand::Explain)),
        Command::Part => Some(ValueCommand::Bytes(BytesCommand::Part)),
        Command::Scan => Some(ValueCommand::Bytes(BytesCommand::Scan)),
        Command::Which => Some(ValueCommand::Bytes(BytesCommand::Which)),
        _ => None,
    }
}
