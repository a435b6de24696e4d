//! The file of `--output`, FILE.
ghost use Rattle.std.specs.Prelude.{ℕ, List, Option};
ghost use Rattle.bcs_tool.specs.OutputFile.{Opens, Replaces, Stage, Syncs, Writes};

use bcs_tool_command_line::FileCause;

/// Why FILE couldn't be opened.
#[derive(Clone, Copy, Debug, Drop, PartialEq, Eq)]
pub enum OpenFailed {
    /// The system doesn't open it, for this cause.
    Refused(FileCause),
    OutOfMemory,
}

/// The one file that the program may open for writing. It is replaced by a new file once that has the whole answer, so it is
/// never lost. If it can't be replaced, it is written directly.
pub trait OutputFile {
    /// What the program has done to it.
    ghost stage: { Self → Stage };

    /// The bytes that the open file has received, if known.
    ghost received: { Self → Option (List ℕ) };

    /// Opens a new file beside the file of this name; or that file itself, if it can't be replaced.
    fn open(&mut self, name: &str) -> Result<(), OpenFailed>
        ensures { Opens stage received name.now self.old self.new result };

    /// Writes all of `bytes`.
    fn write(&mut self, bytes: &[u8]) -> Result<(), FileCause>
        ensures { Writes stage received bytes.now self.old self.new result };

    /// Waits until the new file is on the disk.
    fn sync(&mut self) -> Result<(), FileCause>
        ensures { Syncs stage received self.old self.new result };

    /// Gives the new file the name that it was opened for.
    fn replace(&mut self) -> Result<(), FileCause>
        ensures { Replaces stage received self.old self.new result };
}
