//! The file of `--output` in the system's folders.
ghost use Rattle.std.specs.Prelude.{IfOk};
ghost use Rattle.bcs_tool.specs.SystemFile.{IsFresh};

use crate::files::descriptor_names::descriptor_of;
use crate::files::new_file::{NewFile, new_file};
use crate::files::output_file::{OpenFailed, OutputFile};
use bcs_tool_command_line::FileCause;
use std::fs::{File, OpenOptions};
use std::io::{ErrorKind, Write};
use std::path::PathBuf;
use std::{fs, io};

/// A file of the system.
#[derive(Drop)]
pub struct SystemFile<'r> {
    rt: &'r HostRuntime,
    opened: Option<OpenedFile>,
}

/// An open file, and what it is opened for.
#[derive(Drop)]
pub struct OpenedFile {
    name: String,
    file: File,
    // The new file's name, and the one that it will get. A link at the end of FILE's name has been followed.
    from: PathBuf,
    to: PathBuf,
    progress: Progress,
}

/// How far the file of `--output` is.
#[derive(Clone, Copy, Drop)]
pub enum Progress {
    /// A new file is open beside it; the flag says whether all that it received is on the disk.
    Beside(bool),
    /// The new file has taken its name.
    Replaced(bool),
    /// It can't be replaced, so it is itself open. It was emptied, unless its name is that of a descriptor.
    Emptied,
}

impl<'r> SystemFile<'r> {
    ghost use Rattle.std.specs.Prelude.{◌≡◌};
    ghost use Rattle.bcs_tool.specs.OutputFile.{untouched};
    ghost use Rattle.bcs_tool.specs.SystemFile.{stage_of};

    /// Nothing is opened yet.
    pub fn new(rt: &'r HostRuntime) -> SystemFile<'r>
        ensures { stage_of result ≡ untouched }
    {
        SystemFile { rt, opened: None }
    }
}

impl OutputFile for SystemFile<'_> {
    ghost use Rattle.bcs_tool.specs.SystemFile.{stage_of, unknown};

    ghost stage = { stage_of };

    ghost received = { unknown };

    fn open(&mut self, name: &str) -> Result<(), OpenFailed> {
        if self.opened.is_some() {
            return Err(OpenFailed::Refused(FileCause::Other));
        }
        match opened_file(self.rt, name) {
            Ok(file) => {
                self.opened = Some(file);
                Ok(())
            }
            Err(error) if error.kind() == ErrorKind::OutOfMemory => Err(OpenFailed::OutOfMemory),
            Err(error) => Err(OpenFailed::Refused(FileCause::of(&error))),
        }
    }

    fn write(&mut self, bytes: &[u8]) -> Result<(), FileCause> {
        match &mut self.opened {
            Some(file) => file.write(self.rt, bytes),
            None => Err(FileCause::Other),
        }
    }

    fn sync(&mut self) -> Result<(), FileCause> {
        match &mut self.opened {
            Some(file) => file.sync(self.rt),
            None => Ok(()),
        }
    }

    fn replace(&mut self) -> Result<(), FileCause> {
        match &mut self.opened {
            Some(file) => file.replace(self.rt),
            None => Ok(()),
        }
    }
}

impl OpenedFile {
    ghost use Rattle.std.specs.Prelude.{◌≡◌, OnErr, OnOk};
    ghost use Rattle.bcs_tool.specs.OutputFile.{renamed, synced, unsynced};
    ghost use Rattle.bcs_tool.specs.SystemFile.{opened_stage};

    // Writes all of `bytes`. If that fails, it removes the new file.
    fn write(&mut self, rt: &HostRuntime, bytes: &[u8]) -> Result<(), FileCause>
        ensures { opened_stage self.new ≡ unsynced (opened_stage self.old) }
    {
        match self.progress {
            Progress::Replaced(_) => return Err(FileCause::Other),
            Progress::Beside(_) => self.progress = Progress::Beside(false),
            Progress::Emptied => {}
        }
        let written = self.file.write_all(bytes);
        self.done(rt, written)
    }

    // Waits until the new file is on the disk. If that fails, it removes it.
    fn sync(&mut self, rt: &HostRuntime) -> Result<(), FileCause>
        ensures done { OnOk result (opened_stage self.new ≡ synced (opened_stage self.old)) }
        ensures kept { OnErr result (opened_stage self.new ≡ opened_stage self.old) }
    {
        let Progress::Beside(_) = self.progress else {
            return Ok(());
        };
        let synced = self.file.sync_all();
        self.done(rt, synced)?;
        self.progress = Progress::Beside(true);
        Ok(())
    }

    // Gives the new file its name. If that fails, it removes it.
    fn replace(&mut self, rt: &HostRuntime) -> Result<(), FileCause>
        ensures done { OnOk result (opened_stage self.new ≡ renamed (opened_stage self.old)) }
        ensures kept { OnErr result (opened_stage self.new ≡ opened_stage self.old) }
    {
        let Progress::Beside(is_synced) = self.progress else {
            return Ok(());
        };
        let replaced = fs::rename(rt, self.from.as_path(), self.to.as_path());
        self.done(rt, replaced)?;
        self.progress = Progress::Replaced(is_synced);
        Ok(())
    }

    // What a call returned. If it failed, the new file is of no use.
    fn done(&self, rt: &HostRuntime, ended: io::Result<()>) -> Result<(), FileCause> {
        let Err(error) = ended else {
            return Ok(());
        };
        if let Progress::Beside(_) = self.progress {
            let _ = fs::remove_file(rt, self.from.as_path());
        }
        Err(FileCause::of(&error))
    }
}

// Opens what a descriptor's name stands for; or a new file beside the file of this name; or that file itself, if it can't be
// replaced.
fn opened_file(rt: &HostRuntime, name: &str) -> io::Result<OpenedFile>
    ensures { IfOk result (IsFresh name.now) }
{
    if let Some(number) = descriptor_of(name) {
        return opened_descriptor(rt, name, number);
    }
    let name = String::from_str(rt.alloc(), name)?;
    match new_file(rt, name.as_str())? {
        Some(NewFile { file, from, to }) => Ok(OpenedFile {
            name,
            file,
            from,
            to,
            progress: Progress::Beside(false),
        }),
        None => Ok(OpenedFile {
            file: File::create(rt, name.as_str())?,
            name,
            from: PathBuf::new(rt.alloc()),
            to: PathBuf::new(rt.alloc()),
            progress: Progress::Emptied,
        }),
    }
}

// Opens a descriptor's open file once more. Each host does so for the name `/dev/fd/N`, if it is opened for writing only.
fn opened_descriptor(rt: &HostRuntime, name: &str, number: &str) -> io::Result<OpenedFile>
    ensures { IfOk result (IsFresh name.now) }
{
    let path = format!(in rt.alloc(); "/dev/fd/{number}")?;
    let mut options = OpenOptions::new();
    options.write(true);
    Ok(OpenedFile {
        name: String::from_str(rt.alloc(), name)?,
        file: options.open(rt, path.as_str())?,
        from: PathBuf::new(rt.alloc()),
        to: PathBuf::new(rt.alloc()),
        progress: Progress::Emptied,
    })
}
