//! Files that are written beside their targets, and take their names once they are whole.
use crate::left_drafts::remove_left_drafts;
use std::fs::{self, File};
use std::io::{self, ErrorKind, Write};
use std::os::unix::fs::MetadataExt;
use std::process;

/// How many file names are tried for one draft (a file that is to replace its target).
const MOST_TRIES: u64 = 1000;

/// A temporary file in the folder of its target (the file that it is to become or to replace). It
/// takes the target's name once it is whole. A draft that hasn't taken the name is removed when it
/// is dropped.
pub struct Draft<'a> {
    rt: &'a HostRuntime,
    file: File,
    /// The path of the draft itself.
    name: String,
    /// The path of the target.
    target: String,
    /// Whether the draft has taken the name of its target.
    is_done: bool,
}

/// Locks the file of a draft, so that no other run removes it as the draft of a run that was
/// killed. Returns false if another run had removed `file` before it was locked, else true. It
/// waits while another run has the lock. If the system has no locks, the file isn't locked.
fn hold(file: &File) -> io::Result<bool> {
    // If the system has no locks, no run can lock a draft, and so none removes a draft.
    let _ = file.lock();
    Ok(file.metadata()?.nlink() > 0)
}

/// Makes and locks an empty draft of the file `target`, beside it, under a name that no file has.
/// Drafts of `target` that killed runs left are removed first. The error is `AlreadyExists` if none
/// of `MOST_TRIES` names gave a draft; else an error of the system.
fn new_draft<'a>(rt: &'a HostRuntime, target: String) -> io::Result<Draft<'a>> {
    remove_left_drafts(rt, target.as_str());
    let own = process::id(rt.process());
    for n in 0..MOST_TRIES {
        let name = format!(in rt.alloc(); "{target}.{own}.{n}.draft")?;
        match File::create_new(rt, name.as_str()) {
            Ok(file) => {
                if !hold(&file)? {
                    continue;
                }
                return Ok(Draft {
                    rt,
                    file,
                    name,
                    target,
                    is_done: false,
                });
            }
            Err(error) if error.kind() == ErrorKind::AlreadyExists => {}
            Err(error) => return Err(error),
        }
    }
    Err(ErrorKind::AlreadyExists.into())
}

impl Draft<'_> {
    /// Waits until the draft's bytes are on the disk, and renames it to its target. A file of that
    /// name is replaced.
    fn finish(&mut self) -> io::Result<()> {
        self.file.flush()?;
        self.file.sync_all()?;
        fs::rename(self.rt, self.name.as_str(), self.target.as_str())?;
        self.is_done = true;
        Ok(())
    }
}

impl Drop for Draft<'_> {
    fn drop(self) {
        let Self {
            rt,
            file: _,
            name,
            target: _,
            is_done,
        } = self;
        if !is_done {
            // If the draft can't be removed, the run still reports the fault that ended it.
            let _ = fs::remove_file(rt, name.as_str());
        }
    }
}

/// The open file that gets the bytes of a named output.
#[derive(Drop)]
enum Target<'a> {
    /// Something that is no regular file, such as a pipe: it is written directly.
    Straight(File),
    /// The draft of a regular file, which may not be there yet.
    Draft(Draft<'a>),
}

/// Opens the output `name`: directly if something is there that is no regular file, such as a pipe,
/// else as a draft (a temporary file that takes the name at the end). If a regular file is there,
/// the draft gets its mode (the permission bits), and is made beside the file to which symbolic
/// links lead.
fn open_target<'a>(rt: &'a HostRuntime, name: &str) -> io::Result<Target<'a>> {
    match fs::metadata(rt, name) {
        Ok(found) if found.is_file() => {
            let real = fs::canonicalize(rt, name)?.into_string();
            let draft = new_draft(rt, real)?;
            draft.file.set_permissions(found.permissions())?;
            Ok(Target::Draft(draft))
        }
        Ok(_) => Ok(Target::Straight(File::create(rt, name)?)),
        Err(_) => {
            let target = String::from_str(rt.alloc(), name)?;
            Ok(Target::Draft(new_draft(rt, target)?))
        }
    }
}

/// Tests whether the file `name` could be written: makes a draft (a temporary file beside it) and
/// removes it. Something that is there and is neither a regular file nor a folder, such as a pipe,
/// is not opened, and counts as one that could be written.
///
/// # Errors
///
/// `IsADirectory` if `name` is a folder; else the error of the system for which no draft could be
/// made.
pub fn try_target(rt: &HostRuntime, name: &str) -> io::Result<()> {
    match fs::metadata(rt, name) {
        Ok(found) if found.is_dir() => Err(ErrorKind::IsADirectory.into()),
        Ok(found) if !found.is_file() => Ok(()),
        _ => {
            open_target(rt, name)?;
            Ok(())
        }
    }
}

/// A writer to standard output, or to a named file, which is opened when the first byte is written.
#[derive(Drop)]
pub struct Output<'a> {
    rt: &'a HostRuntime,
    /// The name of the file; None for standard output.
    name: Option<&'a str>,
    /// What is open for writing; None before the first byte, and for standard output.
    target: Option<Target<'a>>,
    /// The kind of error of the last write that failed; None if none has.
    failed: Option<ErrorKind>,
}

impl<'a> Output<'a> {
    ghost use Rattle.std.specs.Io.{WritesAtMost};

    /// Makes an output to the file `name`; None and `/dev/stdout` are standard output. No file is
    /// made or opened yet.
    pub fn new(rt: &'a HostRuntime, name: Option<&'a str>) -> Output<'a> {
        let name = match name {
            Some("/dev/stdout") | None => None,
            Some(name) => Some(name),
        };
        Output {
            rt,
            name,
            target: None,
            failed: None,
        }
    }

    /// Returns the name of the file that is written; None for standard output.
    pub fn name(&self) -> Option<&'a str> {
        self.name
    }

    /// Returns the kind of error of the last write that failed, or None if none has.
    pub fn failed(&self) -> Option<ErrorKind> {
        self.failed
    }

    /// Opens the file `name` as the target of this output, unless a target is open already.
    fn open(&mut self, name: &str) -> io::Result<()> {
        if self.target.is_none() {
            self.target = Some(open_target(self.rt, name)?);
        }
        Ok(())
    }

    /// Writes some of `bytes` in one write, and returns how many; they may be fewer than all. The
    /// file is opened if it isn't open.
    fn write_some(&mut self, bytes: &[u8]) -> io::Result<usize>
        ensures { WritesAtMost result bytes.now }
    {
        let Some(name) = self.name else {
            return self.rt.stdout().write(bytes);
        };
        self.open(name)?;
        match &mut self.target {
            Some(Target::Straight(file)) => file.write(bytes),
            Some(Target::Draft(draft)) => draft.file.write(bytes),
            None => Ok(0),
        }
    }

    /// Finishes the output once all its bytes are written: a draft (the temporary file that has
    /// them) takes the name of its target. If no byte was written, an empty file is made all the
    /// same.
    ///
    /// # Errors
    ///
    /// An error of the system. If the name stood for a regular file, that file is unchanged.
    pub fn finish(&mut self) -> io::Result<()> {
        let Some(name) = self.name else {
            return self.rt.stdout().flush();
        };
        self.open(name)?;
        match &mut self.target {
            Some(Target::Straight(file)) => file.flush(),
            Some(Target::Draft(draft)) => draft.finish(),
            None => Ok(()),
        }
    }
}

impl Write for Output<'_> {
    fn write(&mut self, bytes: &[u8]) -> io::Result<usize> {
        let done = self.write_some(bytes);
        if let Err(error) = &done {
            self.failed = Some(error.kind());
        }
        done
    }

    fn flush(&mut self) -> io::Result<()> {
        Ok(())
    }
}
