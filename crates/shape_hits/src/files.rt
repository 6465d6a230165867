//! The SGF files of hits (times that a pattern was played or was there), written into a folder.
use engine_core::RunFault;
use game_files::Shown;
use hits_core::{Hit, Results, file_name, sgf_of};
use std::fs::{self, File, OpenOptions};
use std::io::{self, ErrorKind, Write};

/// The fault that is returned if a file or folder can't be made or written.
const UNWRITTEN: RunFault = RunFault::Write { written: 0 };

/// Returns in a few words why a file or folder was not made.
fn why_unmade(error: &io::Error) -> &'static str {
    match error.kind() {
        ErrorKind::AlreadyExists => "it is there already",
        ErrorKind::PermissionDenied => "permission denied",
        ErrorKind::NotFound => "no such folder",
        ErrorKind::NotADirectory => "it is in no folder",
        _ => "it can't be made",
    }
}

/// Prints to standard error that the file or folder `name` was not written, and why. A failure to
/// print is ignored.
fn tell(rt: &HostRuntime, name: &str, why: &str) {
    let _ = eprintln!(rt; "shape_hits: I2 {}: {why}", Shown(name));
}

/// Creates the file `name` for writing. An error of the system if it can't be made, `AlreadyExists`
/// if there is one already.
fn new_file(rt: &HostRuntime, name: &str) -> io::Result<File> {
    let mut options = OpenOptions::new();
    options.write(true).create_new(true);
    options.open(rt, name)
}

/// Creates the file of this name and writes `text` to it. If there is a file already, or it can't
/// be made or written, prints that to standard error and returns `Write`.
fn write_file(rt: &HostRuntime, name: &str, text: &[u8]) -> Result<(), RunFault> {
    let mut file = match new_file(rt, name) {
        Ok(file) => file,
        Err(error) => {
            tell(rt, name, why_unmade(&error));
            return Err(UNWRITTEN);
        }
    };
    if file.write_all(text).is_err() {
        tell(rt, name, "a write failed");
        return Err(UNWRITTEN);
    }
    Ok(())
}

/// Returns the name of a hit's file, with that of its folder before it. `Memory` if memory was
/// refused.
fn name_in(rt: &HostRuntime, folder: &str, hit: &Hit) -> Result<String, RunFault> {
    let mut name = String::from_str(rt.alloc(), folder)?;
    if !folder.ends_with('/') {
        name.push('/')?;
    }
    for byte in file_name(rt.alloc(), hit)? {
        name.push(char::from(byte))?;
    }
    Ok(name)
}

/// Whether `hit` has the same file as `last`, the hit before it: they are at the same point before
/// the same move.
fn is_again(last: &Option<Hit>, hit: &Hit) -> bool {
    match last {
        Some(last) => last.game == hit.game && last.number == hit.number && last.at == hit.at,
        None => false,
    }
}

/// Makes the folder `folder`, unless it is there.
///
/// # Errors
///
/// `Write` if the folder is not there and can't be made, or something else has its name; this is
/// printed to standard error.
pub fn make_folder(rt: &HostRuntime, folder: &str) -> Result<(), RunFault> {
    if let Ok(found) = fs::metadata(rt, folder) {
        if found.is_dir() {
            return Ok(());
        }
        tell(rt, folder, "it is no folder");
        return Err(UNWRITTEN);
    }
    match fs::create_dir(rt, folder) {
        Ok(()) => Ok(()),
        Err(error) => {
            tell(rt, folder, why_unmade(&error));
            Err(UNWRITTEN)
        }
    }
}

/// Writes an SGF file into `folder` for each hit of an input, at most `most` files. `results` has
/// the input's games and hits, and `first` is the number of its first game. Hits at the same point
/// before the same move have one file. Returns how many files were written.
///
/// # Errors
///
/// `Memory` if memory was refused; `Write` if a file is there already, or could not be made or
/// written, which is printed to standard error. Files that were written before stay.
pub fn write_files(
    rt: &HostRuntime,
    folder: &str,
    first: u64,
    results: &Results,
    most: u64,
) -> Result<u64, RunFault> {
    let mut last: Option<Hit> = None;
    let mut written = 0;
    for hit in &results.hits {
        if written >= most {
            return Ok(written);
        }
        let place = hit.game.saturating_sub(first) as usize;
        let Some(game) = results.games.get(place) else {
            return Ok(written);
        };
        if !is_again(&last, hit) {
            let name = name_in(rt, folder, hit)?;
            write_file(rt, &name, &sgf_of(rt.alloc(), &game.recorded, hit)?)?;
            written += 1;
        }
        last = Some(*hit);
    }
    Ok(written)
}
