//! The inputs of a count, each read whole when its turn comes, and the fate (what came) of each.
use crate::progress::Progress;
use crate::reports::{Fate, Sum, fate_of, name_of};
use crate::telling::{is_told, tell_fate};
use game_core::{GamesFault, Report};
use game_files::{Cause, Source, cause_of, open_file};
use sgf_core::{MOST_BYTES, SgfFault};
use std::alloc::AllocError;
use std::fs::File;
use std::io::{ErrorKind, Read};
use tally_parts::Texts;

/// How many of an input's first bytes are looked at to guess what an input without a tree is.
const FRONT: usize = 8;

/// What came of the inputs so far: of each, and of all together.
#[derive(Drop)]
struct Taken<'a> {
    /// What came of each input, in their order; `Fate::Waiting` if it was not read yet.
    fates: Vec<Fate>,
    /// What came of all inputs so far together, in numbers.
    sum: Sum,
    /// What the input that was read last may be, such as packed by gzip, if it has no tree.
    cause: Cause,
    /// The progress line on the terminal; None if no terminal shows one.
    progress: Option<Progress<'a>>,
}

/// The inputs of a count, and what came of each.
#[derive(Drop)]
pub struct Inputs<'a> {
    rt: &'a HostRuntime,
    sources: &'a [Source],
    taken: Taken<'a>,
    /// Whether no dictionary is wanted once an input was left out or has no tree, or a folder has
    /// no file of games.
    is_strict: bool,
}

/// Reads all bytes of `reader` into `room`, but at most `MOST_BYTES`; an input with that many bytes
/// is too large. Returns None if they were read, and `Fate::Unread` if a read failed. `AllocError`
/// if memory was refused.
fn read_whole<R: Read + Drop>(reader: R, room: &mut Vec<u8>) -> Result<Option<Fate>, AllocError> {
    match reader.take(MOST_BYTES as u64).read_to_end(room) {
        Ok(_) => Ok(None),
        Err(error) if error.kind() == ErrorKind::OutOfMemory => Err(AllocError),
        Err(_) => Ok(Some(Fate::Unread)),
    }
}

/// Reads an open file whole into `room`. Returns None if it was read. Else it returns the input's
/// fate: `Faulty` if the file is too large, which is not read then, or `Unread` if a read failed.
/// `AllocError` if memory was refused.
fn read_opened(file: File, room: &mut Vec<u8>) -> Result<Option<Fate>, AllocError> {
    if let Ok(found) = file.metadata() {
        if found.len() >= MOST_BYTES as u64 {
            return Ok(Some(Fate::Faulty(SgfFault::TooLarge)));
        }
        room.reserve(found.len() as usize + 1)?;
    }
    read_whole(file, room)
}

/// Reads the input `source` whole into `room`. Returns None if it was read, else the fate (what
/// came of the input) that says why it can't be read. `AllocError` if memory was refused.
fn read_source(
    rt: &HostRuntime,
    source: &Source,
    room: &mut Vec<u8>,
) -> Result<Option<Fate>, AllocError> {
    match source {
        Source::Input => read_whole(rt.stdin(), room),
        Source::File(name) => match open_file(rt, name.as_str())? {
            Ok(file) => read_opened(file, room),
            Err(why) => Ok(Some(Fate::Flawed(why))),
        },
        Source::Flaw(flaw) => Ok(Some(Fate::Flawed(flaw.why))),
    }
}

/// Returns the first `FRONT` bytes of `text`, or all if there are fewer.
fn front_of(text: &[u8]) -> &[u8] {
    &text[..text.len().min(FRONT)]
}

impl Taken<'_> {
    /// Notes that an input was read, whose bytes are `text`, and updates the progress line. The
    /// text is not checked for faults of syntax yet.
    fn read(&mut self, text: &[u8]) {
        self.cause = cause_of(front_of(text));
        if let Some(progress) = &mut self.progress {
            progress.show(text.len(), self.sum.report.games);
        }
    }

    /// Clears from the terminal the line that says how far the count is.
    fn clear_progress(&mut self) {
        if let Some(progress) = &mut self.progress {
            progress.clear();
        }
    }

    /// Notes `fate`, what came of input `n` (from 0), and adds it to the sum over all inputs. If
    /// `is_told` says that the fate needs a line on standard error, that line is written.
    fn take(&mut self, rt: &HostRuntime, sources: &[Source], n: usize, fate: Fate) {
        if is_told(fate) {
            self.clear_progress();
        }
        self.sum = self.sum.with(fate);
        if let Some(place) = self.fates.get_mut(n) {
            *place = fate;
        }
        if let Some(source) = sources.get(n) {
            tell_fate(rt, name_of(source), fate);
        }
    }
}

impl<'a> Inputs<'a> {
    /// Makes the inputs of a count from `sources`, of which none was read yet. If `is_strict`, no
    /// dictionary is wanted once an input was left out or has no tree, or a folder has no file of
    /// games.
    ///
    /// # Errors
    ///
    /// `AllocError` if memory was refused.
    pub fn new(
        rt: &'a HostRuntime,
        sources: &'a [Source],
        is_strict: bool,
    ) -> Result<Inputs<'a>, AllocError> {
        let fates = vec![in rt.alloc(); Fate::Waiting; sources.len()]?;
        Ok(Inputs {
            rt,
            sources,
            taken: Taken {
                fates,
                sum: Sum::new(),
                cause: Cause::Empty,
                progress: Progress::begin(rt, sources),
            },
            is_strict,
        })
    }

    /// Clears from the terminal the line that says how far the count is.
    pub fn clear_progress(&mut self) {
        self.taken.clear_progress();
    }

    /// Returns what came of each input, in their order; `Fate::Waiting` if it was not read yet.
    pub fn fates(&self) -> &[Fate] {
        self.taken.fates.as_slice()
    }

    /// Returns what came of all inputs so far together, in numbers.
    pub fn sum(&self) -> &Sum {
        &self.taken.sum
    }
}

impl Texts for Inputs<'_> {
    ghost use Rattle.std.specs.Prelude.{◌≡◌, length, true, None};
    ghost use Rattle.shape_tally.specs.Sums.{IsWhole};

    ghost number = { λ i. length i.sources.now };

    ghost bytes = { λ _ _. None };

    ghost IsWanted = { λ i. i.is_strict ≡ true → IsWhole i.taken.sum };

    fn count(&self) -> usize {
        self.sources.len()
    }

    fn read(&mut self, n: usize, room: &mut Vec<u8>) -> Result<bool, AllocError> {
        match read_source(self.rt, &self.sources[n], room)? {
            None => {
                self.taken.read(room.as_slice());
                Ok(true)
            }
            Some(fate) => {
                self.taken.take(self.rt, self.sources, n, fate);
                Ok(false)
            }
        }
    }

    fn judged(&mut self, n: usize, found: Result<Report, GamesFault>) {
        let fate = fate_of(found, self.taken.cause, self.taken.sum.report.games);
        self.taken.take(self.rt, self.sources, n, fate);
    }

    fn is_wanted(&self) -> bool {
        !self.is_strict || self.taken.sum.is_whole()
    }
}
