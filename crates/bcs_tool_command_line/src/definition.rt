//! The command line in clap's terms.
ghost use Rattle.std.specs.Prelude.{◌≡◌, IfOk, false, fold, map};
ghost use Rattle.clap.specs.Words.{app_of, with_rule};
ghost use Rattle.clap.specs.declared.builder.command.Command.TheViews.{out-Command};
ghost use Rattle.bcs_tool_command_line.specs.CommandLine.{bcs_app, with_command};
ghost use Rattle.bcs_tool_command_line.specs.Options.{app_of_command, app_of_row};
ghost use Rattle.bcs_tool_command_line.specs.Words.{row_in_table, rule_of_word};

use crate::command::Command;
use crate::options::{Row, row_of};
use crate::texts;
use crate::version::VERSION;
use crate::word::Word;
use std::alloc::{AllocError, Global};

/// The whole command line, which starts with the program's own name.
pub fn bcs_command<'a>(alloc: Global) -> Result<clap::Command<'a>, AllocError>
    ensures { IfOk result (λ c. app_of c ≡ bcs_app) }
{
    let program = clap::Command::new(alloc, "bcs")
        .about(
            "Binary Canonical Serialization: encodes, decodes and explains values, with a registry of formats",
        )
        .after_help(texts::PROGRAM_EXAMPLES)
        .version(VERSION)
        .subcommand_required(true);
    with_commands(alloc, program, Command::ALL)
}

fn with_commands<'a>(
    alloc: Global,
    mut program: clap::Command<'a>,
    commands: &[Command],
) -> Result<clap::Command<'a>, AllocError>
    ensures { IfOk result (λ c. app_of c ≡ fold with_command (app_of program.entry) (map app_of_command commands.now)) }
{
    for command in commands {
        program = with_command(alloc, program, *command)?;
    }
    Ok(program)
}

fn with_command<'a>(
    alloc: Global,
    program: clap::Command<'a>,
    command: Command,
) -> Result<clap::Command<'a>, AllocError>
    ensures { IfOk result (λ c. app_of c ≡ with_command (app_of program.entry) (app_of_command command)) }
{
    program.subcommand(command_of(alloc, row_of(command))?)
}

fn command_of<'a>(alloc: Global, row: Row) -> Result<clap::Command<'a>, AllocError>
    ensures app { IfOk result (λ c. app_of c ≡ app_of_row (row_in_table row)) }
    ensures global { IfOk result (λ c. (out-Command c).has_globals ≡ false) }
{
    let command = clap::Command::new(alloc, row.name)
        .about(row.about)
        .after_help(row.examples);
    let command = with_words(alloc, command, row.words)?;
    match row.alias {
        Some(alias) => command.visible_alias(alias),
        None => Ok(command),
    }
}

fn with_words<'a>(
    alloc: Global,
    mut command: clap::Command<'a>,
    words: &[Word<'a>],
) -> Result<clap::Command<'a>, AllocError>
    requires global { (out-Command command).has_globals ≡ false }
    ensures app { IfOk result (λ c. app_of c ≡ fold with_rule (app_of command.entry) (map rule_of_word words.now)) }
    ensures global { IfOk result (λ c. (out-Command c).has_globals ≡ false) }
{
    for word in words {
        command = command.arg(word.argument(alloc))?;
    }
    Ok(command)
}
