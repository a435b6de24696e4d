//! The new file that takes the place of FILE, the file of `--output`. It gets FILE's mode and owner.

use std::fs::{File, Metadata, OpenOptions, Permissions};
use std::io::ErrorKind;
use std::os::fd::AsFd;
use std::os::unix::fs::{MetadataExt, OpenOptionsExt, PermissionsExt, fchown};
use std::path::{Path, PathBuf};
use std::random::RandomSource;
use std::{fs, io};

// As on Linux.
const MOST_LINKS: u32 = 40;
// As long as nobody knows the names, one is enough.
const MOST_TRIES: u32 = 1000;

const RIGHTS: u32 = 0o777;

const SPECIAL_RIGHTS: u32 = 0o7000;

/// An empty file, its name, and the name of the file that it can replace.
#[derive(Drop)]
pub(crate) struct NewFile {
    pub(crate) file: File,
    pub(crate) from: PathBuf,
    pub(crate) to: PathBuf,
}

// The end of the links that begin at FILE's name.
struct Target {
    path: PathBuf,
    // Whether each link belongs to the user or to the owner of its folder.
    is_own: bool,
}

/// Makes the new file. There is none if FILE has to be written directly: it isn't a regular file, it has other names or special
/// rights, or the user can't make a file beside it with its owner. The user has to have the right to write FILE. A link to
/// nothing that somebody else made is refused, so that nobody chooses which file the user makes.
pub(crate) fn new_file(rt: &HostRuntime, name: &str) -> io::Result<Option<NewFile>> {
    let Some(Target { path: to, is_own }) = followed(rt, name)? else {
        return Ok(None);
    };
    let old = match fs::symlink_metadata(rt, to.as_path()) {
        Ok(old) => Some(old),
        Err(error) if error.kind() == ErrorKind::NotFound => None,
        Err(error) => return Err(error),
    };
    if old.is_none() && !is_own {
        return Err(io::Error::from(ErrorKind::PermissionDenied));
    }
    if old.as_ref().is_some_and(|old| !is_replaceable(old)) || !leads_to(rt, name, &old)? {
        return Ok(None);
    }
    let (from, file) = match file_beside(rt, to.as_path(), old.is_some()) {
        Ok(made) => made,
        Err(error) if is_hindered(error.kind()) => return Ok(None),
        Err(error) => return Err(error),
    };
    if old.is_some_and(|old| take_rights(&file, &old).is_err()) {
        fs::remove_file(rt, from.as_path())?;
        return Ok(None);
    }
    Ok(Some(NewFile { file, from, to }))
}

// Follows the links that begin at this name. There is no target if a link is none of a folder's, like `/proc/self/exe`.
fn followed(rt: &HostRuntime, name: &str) -> io::Result<Option<Target>> {
    let mut path = PathBuf::from_str(rt.alloc(), name)?;
    let mut is_own = true;
    for _ in 0..MOST_LINKS {
        match fs::symlink_metadata(rt, path.as_path()) {
            Ok(found) if found.is_symlink() => {
                if found.permissions().mode() & RIGHTS != RIGHTS {
                    return Ok(None);
                }
                let target = fs::read_link(rt, path.as_path())?;
                path.pop();
                is_own = is_own && belongs(rt, &found, path.as_str())?;
                path.push(target.as_path())?;
            }
            _ => return Ok(Some(Target { path, is_own })),
        }
    }
    Ok(None)
}

// Whether a link belongs to the user, or to the owner of its folder. In a folder where others may only change what is theirs,
// nobody else can have put it there, or change it now.
fn belongs(rt: &HostRuntime, link: &Metadata, folder: &str) -> io::Result<bool> {
    let folder = if folder.is_empty() { "." } else { folder };
    Ok(link.uid() == fs::metadata(rt, folder)?.uid() || is_of_user(rt, link))
}

// The folder of a process belongs to its user. Where there is no /proc, hosts answer that.
fn is_of_user(rt: &HostRuntime, file: &Metadata) -> bool {
    fs::metadata(rt, "/proc/self").is_ok_and(|own| own.uid() == file.uid())
}

fn is_replaceable(old: &Metadata) -> bool {
    old.is_file() && old.nlink() == 1 && old.permissions().mode() & SPECIAL_RIGHTS == 0
}

// Whether the system follows FILE's name to this file, or to none. It opens the file as a shell's `>` does, but leaves it as it
// is. So it refuses what it protects: files that may not be written, and links that others put into a folder for everybody.
fn leads_to(rt: &HostRuntime, name: &str, old: &Option<Metadata>) -> io::Result<bool> {
    let mut options = OpenOptions::new();
    options.write(true).create(old.is_some());
    match options.open(rt, name) {
        Ok(file) => {
            let found = file.metadata()?;
            Ok(
                old.as_ref()
                    .is_some_and(|old| old.dev() == found.dev() && old.ino() == found.ino()),
            )
        }
        Err(error) if error.kind() == ErrorKind::NotFound => Ok(old.is_none()),
        Err(error) => Err(error),
    }
}

// Makes a file in the same folder, which only the user may read until it has FILE's rights.
fn file_beside(rt: &HostRuntime, path: Path<'_>, has_rights: bool) -> io::Result<(PathBuf, File)> {
    let mode = if has_rights { 0o600 } else { 0o666 };
    let first = random_number(rt);
    for number in 0..MOST_TRIES {
        let beside = name_beside(rt, path, first.wrapping_add(number))?;
        let mut options = OpenOptions::new();
        options.write(true).create_new(true).mode(mode);
        match options.open(rt, beside.as_path()) {
            Ok(file) => return Ok((beside, file)),
            Err(error) if error.kind() == ErrorKind::AlreadyExists => {}
            Err(error) => return Err(error),
        }
    }
    Err(io::Error::from(ErrorKind::AlreadyExists))
}

// A number that others can't foresee. So nobody can keep the new file out of a folder by making files of all its names. It is 0
// if the system has none.
fn random_number(rt: &HostRuntime) -> u32 {
    let mut bytes = [0; 4];
    match rt.fill_bytes(&mut bytes) {
        Ok(()) => u32::from_le_bytes(bytes),
        Err(_) => 0,
    }
}

// `.FILE.bcs-N`, in FILE's folder. If FILE's name may be one of Windows with folders in it, it is `FILE.bcs-N`.
fn name_beside(rt: &HostRuntime, path: Path<'_>, number: u32) -> io::Result<PathBuf> {
    let name = path.file_name().unwrap_or("");
    let dot = if name.contains('\\') || name.contains(':') {
        ""
    } else {
        "."
    };
    let beside = format!(in rt.alloc(); "{dot}{name}.bcs-{number:08x}")?;
    Ok(path.with_file_name(rt.alloc(), beside.as_str())?)
}

// Whether no file can be made in the folder, though the one that is there may be written. Folders of the system like `/proc/self`
// have no room for others, and Windows finds no file whose name is too long.
fn is_hindered(kind: ErrorKind) -> bool {
    matches!(
        kind,
        ErrorKind::PermissionDenied
            | ErrorKind::ReadOnlyFilesystem
            | ErrorKind::InvalidFilename
            | ErrorKind::NotFound
    )
}

// Gives the new file the owner, the group and the mode of the old one, which has to be on the same device.
fn take_rights(file: &File, old: &Metadata) -> io::Result<()> {
    let new = file.metadata()?;
    if new.dev() != old.dev() {
        return Err(io::Error::from(ErrorKind::CrossesDevices));
    }
    if new.uid() != old.uid() || new.gid() != old.gid() {
        fchown(file.as_fd(), Some(old.uid()), Some(old.gid()))?;
    }
    file.set_permissions(Permissions::from_mode(old.permissions().mode() & RIGHTS))
}
