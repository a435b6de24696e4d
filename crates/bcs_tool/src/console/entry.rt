//! The program, as the system starts it.
ghost use Rattle.std.specs.Prelude.{◌<◌, IfErr};
ghost use Rattle.std.specs.Process.{exit_status};
ghost use Rattle.bcs_tool.specs.Endings.{IsWordsFault};

use crate::console::reporting::report_fault;
use crate::console::responding::respond;
use crate::files::system_file::SystemFile;
use bcs_io::{ReadSource, WriteSink};
use bcs_tool_command_line::LineFault;
use std::env;
use std::env::Env;
use std::io::{BufReader, ErrorKind};
use std::process::ExitCode;

/// The whole program on the system's arguments and standard streams. It returns the status.
pub fn program(rt: &HostRuntime) -> ExitCode
    ensures { exit_status result < 5 }
{
    let words = args_of(rt);
    let mut out = WriteSink::new(rt.stdout());
    let mut errors = WriteSink::new(rt.stderr());
    let status = match BufReader::with_capacity(rt.alloc(), read_ahead(&words), rt.reader()) {
        Ok(reader) => respond(
            rt,
            words,
            &mut ReadSource::new(reader),
            &mut out,
            &mut SystemFile::new(rt),
            &mut errors,
        ),
        Err(_) => report_fault(&LineFault::OutOfMemory, &mut out, &mut errors),
    };
    ExitCode::from(status)
}

/// The number of bytes that are read at a time, if a job needs only a few at a time.
pub(crate) const BLOCK: usize = 65536;

// The number of bytes of standard input that are read ahead: none with `--front`, so that what follows the value stays unread.
fn read_ahead(words: &Result<Vec<String>, LineFault>) -> usize {
    match words {
        Ok(words) if words.iter().any(|word| word.as_str() == "--front") => 0,
        _ => BLOCK,
    }
}

/// The arguments of the command line, which start with the program's own name. An argument that isn't UTF-8 is `Usage`.
pub fn args_of<R: Env + AllocGlobal>(rt: &R) -> Result<Vec<String>, LineFault>
    ensures { IfErr result IsWordsFault }
{
    match env::args(rt) {
        Ok(words) => Ok(words.collect(rt.alloc())?),
        Err(error) => match error.kind() {
            ErrorKind::InvalidData => Err(LineFault::Usage(String::from_str(
                rt.alloc(),
                "error: an argument isn't UTF-8\n",
            )?)),
            _ => Err(LineFault::OutOfMemory),
        },
    }
}
