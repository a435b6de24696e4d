//! The program `bcs`: parses the arguments, runs the job on its input, and reports the result.
#![tactic(auto)]

mod console;
mod files;
mod jobs;
mod lines;

pub use bcs_display_text::style::{Form, Paint, Style};
pub use bcs_io::{ByteSink, ByteSource, ReadSource, TakeFault, WriteSink, put_all, take_all};
pub use bcs_tool_answers::laws;
pub use bcs_tool_command_line::{
    Coding, Color, Command, Display, FileCause, FileFault, FileRefusal, Job, JobOptions, LineFault,
    Misuse, Notation, Origin, Outcome, UnreadFile, Work,
};
pub use console::command_line::line;
pub use console::entry::{args_of, program};
pub use console::reporting::{print_report, report_fault};
pub use console::responding::respond;
pub use files::input_files::InputFiles;
pub use files::output_file::{OpenFailed, OutputFile};
pub use files::reading::{read_named, read_opened, read_work};
pub use files::system_file::SystemFile;
pub use jobs::interruption::Interruption;
pub use jobs::run_fault::RunFault;
pub use jobs::running::{run, run_from};
