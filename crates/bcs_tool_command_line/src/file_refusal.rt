//! Why a file of a job couldn't be read.
ghost use Rattle.std.specs.Prelude.{string_bytes};
ghost use Rattle.bcs_tool_command_line.specs.FaultPlaces.{ReportsPlace, file_place};

use crate::fault_places::place_of_file;
use crate::unread_file::UnreadFile;
use std::alloc::Global;
use thiserror::Error;

/// Why a job can't be done: a file that it names couldn't be read. The message is only the fault's name.
#[derive(Debug, Drop, Error)]
#[error("{reason}")]
pub struct FileRefusal {
    pub reason: UnreadFile,
    /// The file's name. If memory ran out, it may be a registry's JSON.
    pub name: String,
}

impl FileRefusal {
    /// Where the fault occurred. It is empty for a quiet job, if memory ran out, or if no memory is left for it.
    pub fn place(&self, alloc: Global, quiet: bool) -> Vec<u8>
        ensures { ReportsPlace quiet (file_place self.now.reason (string_bytes self.now.name)) result.items }
    {
        place_of_file(alloc, quiet, self.reason, self.name.as_str())
    }
}
