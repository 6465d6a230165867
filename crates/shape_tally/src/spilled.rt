//! The dictionaries of parts (inputs are counted in parts), one after another in a file without a
//! name, where they wait to be joined.
use merge_core::Sources;
use std::alloc::{AllocError, Global};
use std::fs::{self, File};
use std::io::{self, ErrorKind, Read};
use std::os::unix::fs::{FileExt, OpenOptionsExt};
use std::process;
use std::sync::Arc;
use std::thread::{Threads, map_vec};
use tally_parts::Spills;

/// How many names are tried for the file.
const MOST_TRIES: u64 = 1000;

/// Where one dictionary's text is in the file: its first byte's index, and its length in bytes.
#[derive(Clone, Copy, Debug, PartialEq, Eq)]
struct Place {
    start: u64,
    length: u64,
}

/// Stores texts of dictionaries one after another in a temporary file in `folder`. The file's name
/// is removed as soon as the file is made. So nobody else can open it, and it is gone when the
/// process ends, however that comes. The file is made when the first text is stored.
#[derive(Drop)]
pub struct Spilled<'a> {
    rt: &'a HostRuntime,
    folder: &'a str,
    /// The file; None before the first text is stored.
    file: Option<Arc<File, Global>>,
    /// Where each text is that was kept, in their order.
    places: Vec<Place>,
    /// The byte index after the last text that was kept.
    end: u64,
}

/// Bytes that are to be written into the file, from the byte index `start` on.
#[derive(Drop)]
struct Stretch<'a> {
    bytes: &'a [u8],
    start: u64,
}

/// Reads one text of the file, at a byte index of its own, which no other reader moves.
#[derive(Drop)]
pub struct Piece {
    file: Arc<File, Global>,
    /// The index in the file of the byte that is read next.
    next: u64,
    /// The index in the file after the text's last byte.
    end: u64,
}

/// Makes a file at the path `name`, where none may be, and removes the name at once; the file stays
/// open. `AlreadyExists` if a file is there; else an error of the system.
fn new_unnamed(rt: &HostRuntime, name: &str) -> io::Result<File> {
    let file = File::options()
        .read(true)
        .write(true)
        .create_new(true)
        .mode(0o600)
        .open(rt, name)?;
    fs::remove_file(rt, name)?;
    Ok(file)
}

/// Makes and opens a file without a name in `folder`. `AlreadyExists` if `MOST_TRIES` names for it
/// were all taken; else an error of the system.
fn unnamed_in(rt: &HostRuntime, folder: &str) -> io::Result<File> {
    let own = process::id(rt.process());
    for n in 0..MOST_TRIES {
        let name = format!(in rt.alloc(); "{folder}/.shape_tally.{own}.{n}")?;
        match new_unnamed(rt, name.as_str()) {
            Ok(file) => return Ok(file),
            Err(error) if error.kind() == ErrorKind::AlreadyExists => {}
            Err(error) => return Err(error),
        }
    }
    Err(ErrorKind::AlreadyExists.into())
}

/// Returns `parts` as stretches of the file that lie one after another from the byte index `start`
/// on, and the index after the last of them. `AllocError` if memory was refused.
fn stretches_from(
    alloc: Global,
    start: u64,
    parts: &[Vec<u8>],
) -> Result<(Vec<Stretch<'_>>, u64), AllocError> {
    let mut stretches = Vec::with_capacity(alloc, parts.len())?;
    let mut end = start;
    for part in parts {
        stretches.push(Stretch {
            bytes: part.as_slice(),
            start: end,
        })?;
        end = end.saturating_add(part.len() as u64);
    }
    Ok((stretches, end))
}

/// Writes a stretch whole into the file, in as many writes as it takes. The kind of the system's
/// error if one fails; `WriteZero` if one writes nothing.
fn write_stretch(file: &File, stretch: &Stretch<'_>) -> Result<(), ErrorKind> {
    match file.write_all_at(stretch.bytes, stretch.start) {
        Ok(()) => Ok(()),
        Err(error) => Err(error.kind()),
    }
}

/// Writes all stretches into the file, each in a thread of its own if one can be started, and waits
/// for all. An error of the system if one was not written; `OutOfMemory` if memory was refused.
fn write_stretches<R: Threads + Sync>(
    rt: &R,
    file: &File,
    stretches: Vec<Stretch<'_>>,
) -> io::Result<()> {
    let outcomes = map_vec(
        rt,
        stretches,
        &|stretch: Stretch<'_>| { write_stretch(file, &stretch) },
    )?;
    for outcome in outcomes.as_slice() {
        if let Err(kind) = outcome {
            return Err((*kind).into());
        }
    }
    Ok(())
}

impl<'a> Spilled<'a> {
    ghost use Rattle.std.specs.Prelude.{◌≡◌, vec_len};

    /// Makes a store for texts in `folder`. It has no text and no file yet.
    pub fn new(rt: &'a HostRuntime, folder: &'a str) -> Spilled<'a>
        ensures { vec_len result.places ≡ 0 }
    {
        Spilled {
            rt,
            folder,
            file: None,
            places: Vec::new(rt.alloc()),
            end: 0,
        }
    }

    /// Returns a shared handle of the file; the file is made first if there is none.
    fn file(&mut self) -> io::Result<Arc<File, Global>>
        ensures { self.new.places ≡ self.old.places }
    {
        if let Some(file) = &self.file {
            return Ok(Arc::try_clone(file)?);
        }
        let file = Arc::new(self.rt.alloc(), unnamed_in(self.rt, self.folder)?)?;
        self.file = Some(Arc::try_clone(&file)?);
        Ok(file)
    }

    /// Returns a reader of the file's bytes from the index `next` to before the index `end`.
    /// `NotFound` if there is no file yet.
    fn piece(&self, next: u64, end: u64) -> io::Result<Piece> {
        let Some(file) = &self.file else {
            return Err(ErrorKind::NotFound.into());
        };
        Ok(Piece {
            file: Arc::try_clone(file)?,
            next,
            end,
        })
    }
}

impl Sources for Spilled<'_> {
    ghost use Rattle.std.specs.Prelude.{vec_len, None};

    type Reader = Piece;

    ghost number = { λ s. vec_len s.places };

    ghost bytes = { λ _ _. None };

    fn count(&self) -> usize {
        self.places.len()
    }

    fn open(&self, n: usize) -> io::Result<Piece> {
        self.open_at(n, 0)
    }

    fn size(&self, n: usize) -> io::Result<usize> {
        Ok(usize::try_from(self.places[n].length).unwrap_or(usize::MAX))
    }

    fn open_at(&self, n: usize, place: usize) -> io::Result<Piece> {
        let Place { start, length } = self.places[n];
        let end = start.saturating_add(length);
        self.piece(start.saturating_add(place as u64).min(end), end)
    }
}

impl Spills for Spilled<'_> {
    fn keep<R: Threads + Sync>(&mut self, rt: &R, parts: &[Vec<u8>]) -> io::Result<()> {
        let file = self.file()?;
        let start = self.end;
        let (stretches, end) = stretches_from(self.rt.alloc(), start, parts)?;
        write_stretches(rt, &file, stretches)?;
        self.places.push(Place {
            start,
            length: end.saturating_sub(start),
        })?;
        self.end = end;
        Ok(())
    }
}

impl Read for Piece {
    fn read(&mut self, buf: &mut [u8]) -> io::Result<usize> {
        let left = usize::try_from(self.end.saturating_sub(self.next)).unwrap_or(usize::MAX);
        let most = buf.len().min(left);
        if most == 0 {
            return Ok(0);
        }
        let count = self.file.read_at(&mut buf[..most], self.next)?;
        if count == 0 {
            return Err(ErrorKind::UnexpectedEof.into());
        }
        self.next = self.next.saturating_add(count as u64);
        Ok(count)
    }
}
