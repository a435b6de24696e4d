//! A command with its arguments.
ghost use Rattle.std.specs.Prelude.{◌≡◌};
ghost use Rattle.bcs_tool_command_line.specs.Jobs.{HasNoOptions, coding};

use crate::coding::Coding;
use crate::command::Command;
use crate::job_options::JobOptions;
use bcs_value::Limits;

/// What a command line asks for: the command and its arguments as they are. An argument that the command doesn't have is
/// empty.
#[derive(Debug, Drop)]
pub struct Job {
    pub command: Command,
    /// REG, or OLD of `grows`: a registry's JSON, or the name of its file. MODULES of `from-move`: the JSON of modules, or the
    /// name of its file.
    pub registry: String,
    /// NEW of `grows`: a registry's JSON, or the name of its file. A of `same`: the name of a file.
    pub second: String,
    /// FORMAT: a format's JSON, or a container's name. For `which`, which has none, the JSON of `UNIT`.
    pub format: String,
    /// PATH, the steps to a part of a value; or the value of `--name` or of `--pointer`.
    pub path: String,
    /// FILE, or B of `same`: the name of the file to read instead of standard input.
    pub file: Option<String>,
    /// `--raw`: bytes are read and written as they are, not as hexadecimal digits.
    pub raw: bool,
    /// `--depth` and `--nodes`: what a value may hold. The standard limits if they weren't given.
    pub limits: Limits,
    /// The arguments of further commands, and the options that only some commands have.
    pub options: JobOptions,
}

impl Job {
    /// A job without options, from its fields in their order.
    pub fn new(
        command: Command,
        registry: String,
        second: String,
        format: String,
        path: String,
        file: Option<String>,
        raw: bool,
        limits: Limits,
    ) -> Job
        ensures words { (result.command ≡ command) × (result.registry ≡ registry) × (result.second ≡ second)
            × (result.format ≡ format) × (result.path ≡ path) × (result.file ≡ file) }
        ensures flags { (result.raw ≡ raw) × (result.limits ≡ limits) }
        ensures options { HasNoOptions result.options }
    {
        Job {
            command,
            registry,
            second,
            format,
            path,
            file,
            raw,
            limits,
            options: JobOptions::none(),
        }
    }

    /// How bytes are read and written.
    pub fn coding(&self) -> Coding
        ensures { result ≡ coding self.now.raw self.now.options.base64 }
    {
        Coding::of(self.raw, self.options.base64)
    }
}
