//! Why a named file couldn't be read, and why it couldn't be opened.
ghost use Rattle.std.specs.Prelude.{◌≡◌};

use crate::file_cause::FileCause;
use bcs_io::TakeFault;
use thiserror::Error;

/// Why the content of a named file couldn't be read. The message is only the fault's name.
#[derive(Clone, Copy, Debug, Drop, PartialEq, Eq, Error)]
pub enum UnreadFile {
    /// The file could not be opened.
    #[error("Open")]
    OpenFailed(FileCause),
    /// Its content couldn't be read.
    #[error(transparent)]
    ReadFailed(TakeFault),
}

impl From<TakeFault> for UnreadFile {
    ghost use Rattle.bcs_tool_command_line.specs.declared.unread_file.UnreadFile.TheVariants.{ReadFailed};

    ghost from_gives = { λ fault result. result ≡ ReadFailed fault };

    fn from(fault: TakeFault) -> UnreadFile {
        UnreadFile::ReadFailed(fault)
    }
}
