//! What a name stands for in the file system, links followed.
ghost use Rattle.std.specs.Prelude.{◌≡◌, IfOk, IfErr};
ghost use Rattle.game_files.specs.Flaws.{status_of};
ghost use Rattle.game_files.specs.Inner.Looks.{HasStatus};

use crate::flaws::Why;
use std::alloc::AllocError;
use std::fs::File;
use std::io::ErrorKind;
use std::os::unix::fs::MetadataExt;
use std::{fs, io};

/// The identity of a folder: the number of its device, and its inode number there.
#[derive(Clone, Copy, PartialEq, Eq)]
pub(crate) struct Place {
    device: u64,
    number: u64,
}

/// What a name stands for.
#[derive(Clone, Copy)]
pub(crate) enum Seen {
    /// A folder, with its identity.
    Folder(Place),
    /// A regular file.
    File,
    /// Something else that may be read, such as a pipe.
    Other,
    /// Nothing that can be looked at, for this reason.
    Unseen(Why),
}

/// Returns why a call of the system failed with `error`.
///
/// # Errors
///
/// `AllocError` if memory was refused.
pub(crate) fn why_of(error: &io::Error) -> Result<Why, AllocError>
    ensures { IfOk result (λ why. status_of why ≡ 6) }
{
    match error.kind() {
        ErrorKind::OutOfMemory => Err(AllocError),
        ErrorKind::NotFound => Ok(Why::Missing),
        ErrorKind::PermissionDenied => Ok(Why::Denied),
        ErrorKind::FilesystemLoop => Ok(Why::Circle),
        _ => Ok(Why::Unopened),
    }
}

/// Returns what a name stands for, links followed.
///
/// # Errors
///
/// `AllocError` if memory was refused.
pub(crate) fn look(rt: &HostRuntime, name: &str) -> Result<Seen, AllocError>
    ensures { IfOk result HasStatus }
{
    match fs::metadata(rt, name) {
        Ok(found) if found.is_dir() => Ok(Seen::Folder(Place {
            device: found.dev(),
            number: found.ino(),
        })),
        Ok(found) if found.is_file() => Ok(Seen::File),
        Ok(_) => Ok(Seen::Other),
        Err(error) => Ok(Seen::Unseen(why_of(&error)?)),
    }
}

/// Opens the file of this name, to be read from its beginning. If it can't be opened, returns `Ok`
/// with why not, for which the exit status is 6.
///
/// # Errors
///
/// `AllocError` if memory was refused.
pub fn open_file(rt: &HostRuntime, name: &str) -> Result<Result<File, Why>, AllocError>
    ensures { IfOk result (λ opened. IfErr opened (λ why. status_of why ≡ 6)) }
{
    match File::open(rt, name) {
        Ok(file) => Ok(Ok(file)),
        Err(error) => Ok(Err(why_of(&error)?)),
    }
}
