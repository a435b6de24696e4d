//! Why a named file couldn't be read.
ghost use Rattle.std.specs.Prelude.{◌≡◌};
ghost use Rattle.bcs_tool_command_line.specs.Files.{file_note};

use crate::unread_file::UnreadFile;
use bcs_io::TakeFault;
use thiserror::Error;

/// Why the content of a named file couldn't be read. The message is only the variant's name, and the variants are numbered
/// from 1.
#[derive(Clone, Copy, Debug, Drop, PartialEq, Eq, Error)]
pub enum FileFault {
    /// The file could not be opened.
    #[error("Open")]
    Open = 1,
    /// Reading the file failed.
    #[error("Read")]
    Read,
    /// It has more than 268435456 bytes.
    #[error("TooLarge")]
    TooLarge,
    /// Memory ran out.
    #[error("OutOfMemory")]
    OutOfMemory,
}

impl FileFault {
    /// The line for standard error.
    pub fn note(self) -> &'static str
        ensures { result.now ≡ file_note self }
    {
        match self {
            FileFault::Open => "fault: open",
            FileFault::Read => "fault: read",
            FileFault::TooLarge => "fault: too large",
            FileFault::OutOfMemory => "fault: memory",
        }
    }
}

impl From<UnreadFile> for FileFault {
    ghost use Rattle.bcs_tool_command_line.specs.Files.{file_fault_of};

    ghost from_gives = { λ unread result. result ≡ file_fault_of unread };

    fn from(unread: UnreadFile) -> FileFault {
        match unread {
            UnreadFile::OpenFailed(_) => FileFault::Open,
            UnreadFile::ReadFailed(fault) => FileFault::from(fault),
        }
    }
}

impl From<TakeFault> for FileFault {
    ghost use Rattle.bcs_tool_command_line.specs.declared.unread_file.UnreadFile.TheVariants.{ReadFailed};
    ghost use Rattle.bcs_tool_command_line.specs.Files.{file_fault_of};

    ghost from_gives = { λ taking result. result ≡ file_fault_of (ReadFailed taking) };

    fn from(taking: TakeFault) -> FileFault {
        match taking {
            TakeFault::Read => FileFault::Read,
            TakeFault::TooLarge => FileFault::TooLarge,
            TakeFault::OutOfMemory => FileFault::OutOfMemory,
        }
    }
}
