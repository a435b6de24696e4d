//! What clap finds in the arguments of a command line.
ghost use Rattle.std.specs.Prelude.{◌≡◌, [], IfOk, IfErr, IsOkUnless};
ghost use Rattle.clap.specs.Words.{fault_of, kind_of};
ghost use Rattle.bcs_tool_command_line.specs.CommandLine.{bcs_app, texts_of};
ghost use Rattle.bcs_tool_command_line.specs.Jobs.{IsJobOf};
ghost use Rattle.bcs_tool_command_line.specs.LineFaults.{IsFaultAmong, IsFaultOfKind};
ghost use Rattle.bcs_tool_command_line.specs.Misuses.{misuse_of};
ghost use Rattle.bcs_tool_command_line.specs.Spelling.{spelled};

use crate::arguments::job_of;
use crate::command::Command;
use crate::definition::bcs_command;
use crate::job::Job;
use crate::line_fault::LineFault;
use crate::misuse::misuse_in;
use crate::options::Misuse;
use crate::spelling::spelled;
use crate::tips::usage_text;
use clap::Error;
use clap::error::ErrorKind;
use std::alloc::Global;

/// The job of arguments in which clap finds no fault, and whether they go together.
pub fn parsed_job(alloc: Global, words: &[String]) -> Result<(Job, Option<Misuse>), LineFault>
    ensures job { IfOk result (λ parsed. IsJobOf (texts_of words.now) parsed.0) }
    ensures misuse { IfOk result (λ parsed. parsed.1 ≡ misuse_of (texts_of words.now)) }
    ensures taken { IfOk result (λ _. fault_of bcs_app (spelled (texts_of words.now)) ≡ []) }
    ensures fault { IfErr result (IsFaultAmong (fault_of bcs_app (spelled (texts_of words.now)))) }
    ensures good { fault_of bcs_app (spelled (texts_of words.now)) ≡ []
        → IsOkUnless result LineFault.OutOfMemory }
{
    let definition = bcs_command(alloc)?;
    let full = spelled(alloc, words)?;
    let matches = match definition.try_get_matches_from(full.as_slice()) {
        Ok(matches) => matches,
        Err(error) => return Err(refusal(alloc, &error)),
    };
    let Some((name, given)) = matches.subcommand() else {
        unreachable!()
    };
    let Some(command) = Command::named(name) else {
        unreachable!()
    };
    let misuse = misuse_in(command, given);
    Ok((job_of(alloc, command, given)?, misuse))
}

// clap's error in terms of this crate.
fn refusal(alloc: Global, error: &Error) -> LineFault
    ensures { IsFaultOfKind (kind_of error.now) result }
{
    if error.kind() == ErrorKind::OutOfMemory {
        return LineFault::OutOfMemory;
    }
    let Ok(text) = usage_text(alloc, error) else {
        return LineFault::OutOfMemory;
    };
    match error.kind() {
        ErrorKind::DisplayHelp | ErrorKind::DisplayVersion => LineFault::Help(text),
        _ => LineFault::Usage(text),
    }
}
