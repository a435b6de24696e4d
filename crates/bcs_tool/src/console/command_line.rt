//! The command line: its arguments, and the job that they ask for.
ghost use Rattle.std.specs.Prelude.{◌≡◌, ◌⊎◌, IfOk, IfErr, IsOkUnless};
ghost use Rattle.bcs_tool_command_line.specs.CommandLine.{texts_of};
ghost use Rattle.bcs_tool_command_line.specs.Jobs.{IsJobOf};
ghost use Rattle.bcs_tool_command_line.specs.LineFaults.{IsFaultOf, ReportsMisuse};
ghost use Rattle.bcs_tool_command_line.specs.AcceptedArguments.{AcceptsArguments};

use bcs_tool_command_line::{Job, LineFault, Misuse, parsed_job};
use std::alloc::{AllocError, Global};

/// The job that the arguments ask for. The first one is the program's own name, and the second the name of a command. Options
/// may come anywhere after it. An argument that begins with `-` is an option, unless it is `-` alone or comes after `--`.
///
/// `Help` is returned for `--help`, `-h` and `help`, and for `--version` and `-V`. `Usage` is returned for everything else that
/// isn't a command line of `bcs`: a missing or an unknown command, a missing argument or one too many, an option that the
/// command lacks or that is repeated, and arguments that don't go together (`Misuse`). Valid arguments are refused only if
/// memory runs out.
pub fn line(alloc: Global, words: &[String]) -> Result<Job, LineFault>
    ensures job { IfOk result (IsJobOf (texts_of words.now)) }
    ensures taken { IfOk result (λ _. AcceptsArguments (texts_of words.now)) }
    ensures fault { IfErr result (IsFaultOf (texts_of words.now)) }
    ensures good { AcceptsArguments (texts_of words.now) → IsOkUnless result LineFault.OutOfMemory }
{
    let (job, misuse) = parsed_job(alloc, words)?;
    if let Some(misuse) = misuse {
        return Err(misuse_fault(alloc, misuse));
    }
    Ok(job)
}

// The fault of arguments that don't go together.
fn misuse_fault(alloc: Global, misuse: Misuse) -> LineFault
    ensures { (result ≡ LineFault.OutOfMemory) ⊎ ReportsMisuse misuse result }
{
    match String::from_str(alloc, misuse.text()) {
        Ok(text) => LineFault::Usage(text),
        Err(AllocError) => LineFault::OutOfMemory,
    }
}
