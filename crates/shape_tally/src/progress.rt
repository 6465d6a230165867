//! How far a count is, on a terminal.
use game_files::Source;
use std::io::IsTerminal;
use std::time::Instant;
use std::{env, fs};

/// The least time between two lines, in milliseconds.
const PAUSE: u64 = 500;

/// The environment variable that the launcher sets if a terminal shows at once what this program
/// writes on standard error. Standard error is then a pipe to the launcher.
const SHOWN: &str = "SHAPES_SHOWN";

/// What a terminal shows of a count that takes a while: one line, written over and over.
#[derive(Drop)]
pub struct Progress<'a> {
    rt: &'a HostRuntime,
    start: Instant,
    /// How many bytes all named files have together. A file whose size can't be read counts as 0.
    all: u64,
    /// How many of these bytes were read.
    read: u64,
    /// When the next line is due, in milliseconds since the start.
    due: u64,
    /// Whether the terminal shows a line now.
    is_shown: bool,
}

/// Whether a terminal shows at once what is written on standard error: that is a terminal, or the
/// launcher (the script that starts this program) has set `SHOWN`.
fn is_seen(rt: &HostRuntime) -> bool {
    rt.stderr().is_terminal() || env::var(rt, SHOWN).is_ok()
}

/// Returns how many bytes the named files have together. Standard input, and a file whose size
/// can't be read, count as 0.
fn bytes_of(rt: &HostRuntime, sources: &[Source]) -> u64 {
    let mut all = 0u64;
    for source in sources {
        if let Source::File(name) = source {
            if let Ok(found) = fs::metadata(rt, name.as_str()) {
                all = all.saturating_add(found.len());
            }
        }
    }
    all
}

/// Estimates how many seconds are left, if reading `read` of `all` bytes took `gone` milliseconds.
fn seconds_left(gone: u64, read: u64, all: u64) -> u64 {
    let left = all.saturating_sub(read);
    gone.saturating_mul(left) / read.max(1) / 1000
}

impl<'a> Progress<'a> {
    /// Begins to time a count of the inputs `sources`. Returns None if no terminal shows at once
    /// what is written on standard error, or if the system has no clock.
    pub fn begin(rt: &'a HostRuntime, sources: &[Source]) -> Option<Progress<'a>> {
        if !is_seen(rt) {
            return None;
        }
        Some(Progress {
            rt,
            start: Instant::now(rt).ok()?,
            all: bytes_of(rt, sources),
            read: 0,
            due: PAUSE,
            is_shown: false,
        })
    }

    /// Notes that an input of `bytes` bytes was read; `games` games are counted or being counted.
    /// If `PAUSE` milliseconds have passed since the last line, it shows a new one: the percentage
    /// of all bytes that was read, the games, and the seconds until all is read at this pace.
    pub fn show(&mut self, bytes: usize, games: u64) {
        self.read = self.read.saturating_add(bytes as u64);
        let Ok(elapsed) = self.start.elapsed(self.rt) else {
            return;
        };
        let gone = u64::try_from(elapsed.as_millis()).unwrap_or(u64::MAX);
        if gone < self.due {
            return;
        }
        self.due = gone.saturating_add(PAUSE);
        self.is_shown = true;
        let share = self.read.saturating_mul(100) / self.all.max(1);
        let left = seconds_left(gone, self.read, self.all);
        // If standard error takes nothing, the count goes on without the line.
        let _ = eprint!(*self.rt;
            "\r\x1b[Kshape_tally: {} % read, {games} games, {left} s until all is read",
            share.min(100)
        );
    }

    /// Clears the progress line, if one is shown, so that another line can be written.
    pub fn clear(&mut self) {
        if self.is_shown {
            self.is_shown = false;
            // If standard error takes nothing, the count goes on.
            let _ = eprint!(*self.rt; "\r\x1b[K");
        }
    }
}
