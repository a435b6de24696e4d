//! A command line, its input, and what is written to standard output and standard error.
ghost use Rattle.std.specs.Prelude.{◌≡◌, ◌⊎◌, ◌<◌, not, true, IfErr, IfOk};
ghost use Rattle.bcs_tool_command_line.specs.CommandLine.{texts_of};
ghost use Rattle.bcs_tool_command_line.specs.Jobs.{IsJobOf};
ghost use Rattle.bcs_tool_command_line.specs.LineFaults.{IsFaultOf};
ghost use Rattle.bcs_tool_command_line.specs.AcceptedArguments.{AcceptsArguments};
ghost use Rattle.bcs_tool.specs.Delivering.{Finishes};
ghost use Rattle.bcs_tool.specs.Endings.{ReportsFault};
ghost use Rattle.bcs_tool.specs.Visible.{breaks_lines};

use crate::console::command_line::line;
use crate::console::reporting::{print_report, report_fault, report_fault_of_words};
use crate::files::delivering::{Ended, deliver_to_file};
use crate::files::held_output::HeldOutput;
use crate::files::input_files::InputFiles;
use crate::files::output_file::OutputFile;
use crate::jobs::opening::open_and_run;
use bcs_io::{ByteSink, ByteSource};
use bcs_tool_command_line::{Job, LineFault};

/// Does what the arguments ask for, of which the first is the program's own name, or reports why the system didn't return them.
/// It returns the status. `input` is read if the job has an input and names no file for it.
pub fn respond<R: InputFiles + AllocGlobal, S: ByteSource, O: ByteSink, T: OutputFile, E: ByteSink>(
    rt: &R,
    words: Result<Vec<String>, LineFault>,
    input: &mut S,
    out: &mut O,
    file: &mut T,
    errors: &mut E,
) -> u8
    ensures status { result < 5 }

    // The system didn't return the arguments: nothing is read or written, no file is opened for writing, and the fault is reported.
    ensures no_words { IfErr words (λ fault. (input.new ≡ input.old) × (file.new ≡ file.old)
        × ReportsFault O.taken O.is_failed E.taken E.is_failed true fault out.old out.new errors.old errors.new result) }

    // The arguments aren't accepted, or ask for help or the version.
    ensures no_job { IfOk words (λ given. ¬ AcceptsArguments (texts_of given.items) → (fault : LineFault)
        × IsFaultOf (texts_of given.items) fault × (input.new ≡ input.old) × (file.new ≡ file.old)
        × ReportsFault O.taken O.is_failed E.taken E.is_failed (not (breaks_lines (texts_of given.items))) fault out.old out.new errors.old errors.new result) }

    // They ask for a job, which is done, unless memory runs out before.
    ensures job { IfOk words (λ given. AcceptsArguments (texts_of given.items) →
        ((input.new ≡ input.old) × (file.new ≡ file.old) × ReportsFault O.taken O.is_failed E.taken E.is_failed
        (not (breaks_lines (texts_of given.items))) LineFault.OutOfMemory out.old out.new errors.old errors.new result)
        ⊎ ((job : Job) × IsJobOf (texts_of given.items) job
        × Finishes R.File.remaining S.content S.is_failed S.allowance O.taken O.is_failed T.stage T.received E.taken E.is_failed
        job input.old input.new out.old out.new file.old file.new errors.old errors.new result)) }
{
    let given = match words {
        Ok(given) => given,
        Err(fault) => return report_fault(&fault, out, errors),
    };
    let words = given.as_slice();
    let mut job = match line(rt.alloc(), words) {
        Ok(job) => job,
        Err(fault) => return report_fault_of_words(words, &fault, out, errors),
    };
    let quiet = job.options.quiet;
    match job.options.output.take() {
        None => print_report(open_and_run(rt, job, input, out), errors),
        Some(name) => {
            let mut held = HeldOutput::new(rt.alloc());
            let run = open_and_run(rt, job, input, &mut held);
            let ended = Ended { held, run, quiet };
            deliver_to_file(rt.alloc(), name.as_str(), ended, file, errors)
        }
    }
}
