//! The files whose dictionaries are joined, and the one that is written.
ghost use Rattle.std.specs.Prelude.{◌≡◌, ◌↔◌, IsTrue, IfOk, MatchOption, length, vec_len};
ghost use Rattle.shape_merge.specs.Files.{AreFree, AreOf, IsBarred, IsFirstBarred};
ghost use Rattle.shape_merge.specs.Files.{IsRefused, IsWritten};

use crate::words::Asked;
use merge_core::Sources;
use std::alloc::AllocError;
use std::fs::File;
use std::io::{Seek, SeekFrom, Write};
use std::os::unix::fs::MetadataExt;
use std::{fs, io};

/// The dictionaries that are joined: the files of these names.
#[derive(Drop)]
pub struct Dictionaries<'a> {
    pub rt: &'a HostRuntime,
    pub names: &'a [&'a str],
}

impl Sources for Dictionaries<'_> {
    ghost use Rattle.std.specs.Prelude.{length, None};

    type Reader = File;

    ghost number = { λ d. length d.names.now };

    ghost bytes = { λ _ _. None };

    fn count(&self) -> usize {
        self.names.len()
    }

    fn open(&self, n: usize) -> io::Result<File> {
        File::open(self.rt, self.names[n])
    }

    fn size(&self, n: usize) -> io::Result<usize> {
        let metadata = fs::metadata(self.rt, self.names[n])?;
        Ok(usize::try_from(metadata.len()).unwrap_or(usize::MAX))
    }

    fn open_at(&self, n: usize, place: usize) -> io::Result<File> {
        let mut file = File::open(self.rt, self.names[n])?;
        file.seek(SeekFrom::Start(place as u64))?;
        Ok(file)
    }
}

/// Something that can make a file.
pub trait Maker {
    /// Makes the file, or makes it empty if it is there, and returns it open for writing.
    ///
    /// # Errors
    ///
    /// An error of the system, if the file can't be made.
    fn make(&self) -> io::Result<File>;
}

/// The name of a file that is to be made.
#[derive(Drop)]
pub struct Named<'a> {
    pub rt: &'a HostRuntime,
    pub name: &'a str,
}

impl Maker for Named<'_> {
    fn make(&self) -> io::Result<File> {
        File::create(self.rt, self.name)
    }
}

/// A file that is made, or made empty, when the first byte is written.
#[derive(Drop)]
pub struct Target<M> {
    maker: M,
    file: Option<File>,
}

/// Returns a file that `maker` makes when the first byte is written, and that isn't touched before:
/// `M` can be any type here, not a `Maker` alone, so this call can't make the file.
pub fn new_target<M>(maker: M) -> Target<M>
    ensures { result ≡ record { maker = maker; file = None } }
{
    Target { maker, file: None }
}

impl<M: Maker> Write for Target<M> {
    fn write(&mut self, bytes: &[u8]) -> io::Result<usize> {
        if bytes.is_empty() {
            return Ok(0);
        }
        if self.file.is_none() {
            self.file = Some(self.maker.make()?);
        }
        match &mut self.file {
            Some(file) => file.write(bytes),
            None => Ok(0),
        }
    }

    fn flush(&mut self) -> io::Result<()> {
        Ok(())
    }
}

/// Which file a name stands for, as far as the system knows.
#[derive(Clone, Copy, PartialEq, Eq)]
pub enum FileIdentity {
    /// The system has no data on the name: an attempt to open it will say why.
    Nothing,
    /// A regular file: its device, and its inode number there.
    File { device: u64, number: u64 },
    /// No regular file, such as a pipe, which can't be read twice.
    Other,
}

/// Which files the names of a join stand for: the name of the file that is written, and those of
/// the dictionaries in their order.
#[derive(Drop)]
pub struct Sights {
    pub target: FileIdentity,
    pub dictionaries: Vec<FileIdentity>,
}

/// Returns which file a name stands for, as the system says; the file is not opened.
fn look(rt: &HostRuntime, name: &str) -> FileIdentity {
    match fs::metadata(rt, name) {
        Ok(metadata) if metadata.is_file() => FileIdentity::File {
            device: metadata.dev(),
            number: metadata.ino(),
        },
        Ok(_) => FileIdentity::Other,
        Err(_) => FileIdentity::Nothing,
    }
}

/// Returns which file each of these names stands for, in their order, as the system says.
/// `AllocError` if memory was refused.
fn look_at_all(rt: &HostRuntime, names: &[&str]) -> Result<Vec<FileIdentity>, AllocError>
    ensures { IfOk result (λ identities. vec_len identities ≡ length names.now) }
{
    let mut identities = Vec::new(rt.alloc());
    for name in names {
        identities.push(look(rt, *name))?;
    }
    Ok(identities)
}

/// Returns which files the names of a join stand for, as the system says. If no output file is
/// named, the file that is written is standard output.
///
/// # Errors
///
/// `AllocError` if memory was refused.
pub fn look_at(rt: &HostRuntime, asked: &Asked<'_>) -> Result<Sights, AllocError>
    ensures { IfOk result (AreOf asked.now) }
{
    // Standard output may be one of the dictionaries, to which a shell appends.
    let target = look(rt, asked.out.unwrap_or("/dev/stdout"));
    let dictionaries = look_at_all(rt, &asked.names)?;
    Ok(Sights {
        target,
        dictionaries,
    })
}

/// Whether a dictionary's name stands for no regular file, which can't be read twice, or for the
/// file that is written, `target`. False if the system has no data on the name.
fn is_refused(dictionary: FileIdentity, target: FileIdentity) -> bool
    ensures { IsTrue result ↔ IsRefused dictionary target }
{
    match dictionary {
        FileIdentity::Nothing => false,
        FileIdentity::File { .. } => dictionary == target,
        FileIdentity::Other => true,
    }
}

/// Whether `name` is also the name that was given for the file that is written.
fn is_written(asked: &Asked<'_>, name: &str) -> bool
    ensures { IsTrue result ↔ IsWritten asked.now name.now }
{
    match asked.out {
        Some(out) => out == name,
        None => false,
    }
}

/// Whether the dictionary `name`, which stands for the file `dictionary`, can't be joined: it is
/// the file that is written, by its name or by `target`, or it can't be read twice.
fn is_barred(asked: &Asked<'_>, target: FileIdentity, name: &str, dictionary: FileIdentity) -> bool
    ensures { IsTrue result ↔ IsBarred asked.now target name.now dictionary }
{
    is_written(asked, name) || is_refused(dictionary, target)
}

/// Returns the first of the dictionaries' names that can't be joined, or None if all can be.
/// `sights` says which files the names stand for. A name can't be joined if it stands for something
/// other than a regular file, such as a pipe, which can't be read twice, or if the file is also
/// written, under this name or another.
pub fn which_is_barred<'a>(asked: &Asked<'a>, sights: &Sights) -> Option<&'a str>
    requires { AreOf asked.now sights.now }
    ensures { MatchOption result (AreFree asked.now sights.now)
        (IsFirstBarred asked.now sights.now) }
{
    for (k, dictionary) in sights.dictionaries.iter().enumerate() {
        let name = asked.names[k];
        if is_barred(asked, sights.target, name, *dictionary) {
            return Some(name);
        }
    }
    None
}
