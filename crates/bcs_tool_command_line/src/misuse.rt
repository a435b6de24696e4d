//! Whether the arguments of a command go together.
ghost use Rattle.std.specs.Prelude.{◌≡◌, find};
ghost use Rattle.clap.specs.Words.{found_of, rows_of};
ghost use Rattle.bcs_tool_command_line.specs.Misuses.{misuse_in};
ghost use Rattle.bcs_tool_command_line.specs.Options.{is_misuse};

use crate::command::Command;
use crate::options::Misuse;
use clap::ArgMatches;

/// Whether these arguments of a command go together, and if not, why.
pub fn misuse_in(command: Command, given: &ArgMatches<'_>) -> Option<Misuse>
    ensures { result ≡ misuse_in command (rows_of (found_of given.now)) }
{
    first_misuse(Misuse::ALL, command, given)
}

fn first_misuse(misuses: &[Misuse], command: Command, given: &ArgMatches<'_>) -> Option<Misuse>
    ensures { result ≡ find (λ m. is_misuse m command (rows_of (found_of given.now))) misuses.now }
{
    for misuse in misuses {
        if misuse.is_in(command, given) {
            return Some(*misuse);
        }
    }
    None
}
