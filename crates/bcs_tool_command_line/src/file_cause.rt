//! Why a file couldn't be opened or written.
ghost use Rattle.std.specs.Prelude.{◌≡◌};
ghost use Rattle.std_io.specs.IoError.{error_kind, raw_os_error};
ghost use Rattle.bcs_tool_command_line.specs.FaultPlaces.{advice_text, cause_at, cause_of, cause_text, number_of};

use std::io::{Error, ErrorKind};

// Errors that don't have a kind of their own. Their numbers are Linux's, on every system.
const NOT_PERMITTED: u32 = 1;

const NO_DEVICE: u32 = 6;

const NO_DESCRIPTOR: u32 = 9;

/// Why the system couldn't open or write a file, as far as that is reported.
#[derive(Clone, Copy, Debug, Drop, PartialEq, Eq)]
pub enum FileCause {
    /// There is no file of this name.
    Missing,
    /// The user may not open it, or not look into its folder.
    Forbidden,
    /// Nobody with these rights may do that to it.
    NotPermitted,
    /// What comes before a slash of the name isn't a folder.
    NoFolder,
    /// The name leads through too many symbolic links.
    Loop,
    /// The name is too long.
    LongName,
    /// No file can have this name.
    BadName,
    /// Something else is using it.
    Busy,
    /// The disk is full.
    Full,
    /// There is nothing behind the name of a device.
    NoDevice,
    /// The descriptor isn't open, or not for this.
    NoDescriptor,
    /// Anything else, which isn't reported.
    Other,
}

impl FileCause {
    /// The cause of an error.
    pub fn of(error: &Error) -> FileCause
        ensures { result ≡ cause_at (number_of (raw_os_error error.now)) (error_kind error.now) }
    {
        match number_of(error) {
            NOT_PERMITTED => FileCause::NotPermitted,
            NO_DEVICE => FileCause::NoDevice,
            NO_DESCRIPTOR => FileCause::NoDescriptor,
            _ => FileCause::of_kind(error.kind()),
        }
    }

    fn of_kind(kind: ErrorKind) -> FileCause
        ensures { result ≡ cause_of kind }
    {
        match kind {
            ErrorKind::NotFound => FileCause::Missing,
            ErrorKind::PermissionDenied => FileCause::Forbidden,
            ErrorKind::NotADirectory => FileCause::NoFolder,
            ErrorKind::FilesystemLoop => FileCause::Loop,
            ErrorKind::InvalidFilename => FileCause::LongName,
            ErrorKind::InvalidInput => FileCause::BadName,
            ErrorKind::ResourceBusy => FileCause::Busy,
            ErrorKind::StorageFull => FileCause::Full,
            _ => FileCause::Other,
        }
    }

    /// The text after the file's name.
    pub fn text(self) -> &'static str
        ensures { result.now ≡ cause_text self }
    {
        match self {
            FileCause::Missing => ": No such file or directory",
            FileCause::Forbidden => ": Permission denied",
            FileCause::NotPermitted => ": Operation not permitted",
            FileCause::NoFolder => ": Not a directory",
            FileCause::Loop => ": Too many levels of symbolic links",
            FileCause::LongName => ": File name too long",
            FileCause::BadName => ": Invalid argument",
            FileCause::Busy => ": Device or resource busy",
            FileCause::Full => ": No space left on device",
            FileCause::NoDevice => ": No such device or address",
            FileCause::NoDescriptor => ": Bad file descriptor",
            FileCause::Other => "",
        }
    }

    /// The text after that for a file that should be read: what to do with content in place of a file's name.
    pub fn advice(self) -> &'static str
        ensures { result.now ≡ advice_text self }
    {
        match self {
            FileCause::Missing =>
                "; a value itself goes to standard input, a registry itself starts with {, and modules with { or [",
            _ => "",
        }
    }
}

// The number of an error of the system; 0 of any other.
fn number_of(error: &Error) -> u32
    ensures { result ≡ number_of (raw_os_error error.now) }
{
    match error.raw_os_error() {
        Some(number) => number.unsigned_abs(),
        None => 0,
    }
}
