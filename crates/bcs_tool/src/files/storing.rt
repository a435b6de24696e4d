//! Fills an open file, and gives it its name.
ghost use Rattle.std.specs.Prelude.{IfErr, IfOk};
ghost use Rattle.bcs_tool.specs.OutputFile.{IsCommitted, IsCommittedInPart, IsPut, IsPutInPart};

use crate::files::output_file::OutputFile;
use bcs_tool_command_line::FileCause;

/// Writes all of `bytes` to the open file, waits until they are on the disk, and gives it its name.
pub(crate) fn write_and_commit<T: OutputFile>(bytes: &[u8], file: &mut T) -> Result<(), FileCause>
    ensures all { IfOk result (λ _. IsPut T.stage T.received bytes.now file.old file.new) }
    ensures part { IfErr result (λ _. IsPutInPart T.stage T.received bytes.now file.old file.new) }
{
    match file.write(bytes) {
        Ok(()) => sync_and_replace(file),
        Err(cause) => Err(cause),
    }
}

// Waits until the file is on the disk, and gives it its name.
fn sync_and_replace<T: OutputFile>(file: &mut T) -> Result<(), FileCause>
    ensures all { IfOk result (λ _. IsCommitted T.stage T.received file.old file.new) }
    ensures part { IfErr result (λ _. IsCommittedInPart T.stage T.received file.old file.new) }
{
    match file.sync() {
        Ok(()) => file.replace(),
        Err(cause) => Err(cause),
    }
}
