//! Lines on standard error about inputs and faults, and the sum at the end. If a line can't be
//! written, that is ignored.
ghost use Rattle.std.specs.Prelude.{◌≡◌};
ghost use Rattle.tally_parts.specs.Status.{status_of};

use crate::clashes::Clash;
use crate::drafts::Output;
use crate::reports::{Fate, Sum};
use command_lines::why_unread;
use game_core::Report;
use game_files::Shown;
use merge_core::MergeFault;
use std::io::ErrorKind;
use std::{fmt, fs, io};
use tally_parts::{PartsFault, status_of};

/// The beginning of a line about an input: its name and a colon; nothing for standard input (None).
#[derive(Clone, Copy)]
struct Named<'a>(Option<&'a str>);

impl fmt::Display for Named<'_> {
    fn fmt<W: fmt::Write>(&self, f: &mut fmt::Formatter<W>) -> fmt::Result {
        match self.0 {
            Some(name) => write!(f, "{}: ", Shown(name)),
            None => Ok(()),
        }
    }
}

/// Whether an input with this `fate` (what came of it) gets a line on standard error. It gets none
/// if it was not read yet. An input that was counted gets one, with the numbers of its trees, only
/// if a game is refused or if all its trees are other games than Go.
pub fn is_told(fate: Fate) -> bool {
    match fate {
        Fate::Waiting => false,
        Fate::Counted { report, .. } => report.refused > 0 || report.games == 0,
        Fate::Flawed(_) | Fate::Unread | Fate::Faulty(_) | Fate::Treeless(_) => true,
    }
}

/// Writes a line about an input's fate on standard error, if `is_told` is true of the fate. If the
/// line can't be written, the exit status still shows the fate.
pub fn tell_fate(rt: &HostRuntime, name: Option<&str>, fate: Fate) {
    let name = Named(name);
    if !is_told(fate) {
        return;
    }
    let _ = match fate {
        Fate::Flawed(why) => eprintln!(rt; "shape_tally: {name}{why}"),
        Fate::Unread => eprintln!(rt; "shape_tally: {name}I1 read failed"),
        Fate::Faulty(fault) => eprintln!(rt; "shape_tally: {name}{fault}"),
        Fate::Treeless(cause) => eprintln!(rt; "shape_tally: {name}no tree: {cause}"),
        Fate::Counted { report, .. } => eprintln!(rt;
            "shape_tally: {name}games {} other {} refused {}",
            report.games, report.others, report.refused
        ),
        Fate::Waiting => Ok(()),
    };
}

/// Writes a line on standard error with the numbers of all inputs together: how many there are; how
/// many of their trees are games of Go, are other games, and are refused; how many inputs were left
/// out or have no tree; and how many names were passed over, since they are not UTF-8.
pub fn tell_sum(rt: &HostRuntime, sum: &Sum) {
    let Report {
        games,
        others,
        refused,
    } = sum.report;
    let _ = eprintln!(rt;
        "shape_tally: files {} games {games} other {others} refused {refused} left out {} without a tree {} passed over {}",
        sum.files, sum.left_out, sum.treeless, sum.passed_over
    );
}

/// Writes on standard error that the list of names in the file `list` was not read, and why, as far
/// as a look at the file shows it. `-` stands for standard input, which is not looked at.
pub fn tell_unlisted(rt: &HostRuntime, list: &str) {
    let why = match list {
        "-" => None,
        name => why_unread(rt, name),
    };
    let why = why.unwrap_or("a read failed");
    let _ = eprintln!(rt; "shape_tally: L3 names not read: {}: {why}", Shown(list));
}

/// Writes on standard error that a file can't be written, since the run also uses it as `clash`
/// says. Returns the exit status, 2.
pub fn tell_clash(rt: &HostRuntime, clash: Clash<'_>) -> u8
    ensures { result ≡ 2 }
{
    let _ = match clash {
        Clash::Input(name) => eprintln!(rt; "shape_tally: U1 usage: {} is also read", Shown(name)),
        Clash::Report(name) => {
            eprintln!(rt; "shape_tally: U1 usage: {} is also the report", Shown(name))
        }
    };
    2
}

/// Returns in a few words why a file could not be made or written, by the kind of its error.
fn why_unwritten(kind: ErrorKind) -> &'static str {
    match kind {
        ErrorKind::IsADirectory => "it is a folder",
        ErrorKind::NotFound => "no such folder",
        ErrorKind::NotADirectory => "it is in no folder",
        ErrorKind::PermissionDenied => "permission denied",
        ErrorKind::ReadOnlyFilesystem => "nothing can be written there",
        ErrorKind::StorageFull => "the disk is full",
        _ => "a write failed",
    }
}

/// Writes on standard error that the file `name` could not be made or written, and why, by the
/// `kind` of the error.
pub fn tell_unmade(rt: &HostRuntime, name: &str, kind: ErrorKind) {
    let why = why_unwritten(kind);
    let _ = eprintln!(rt; "shape_tally: I2 {}: {why}", Shown(name));
}

/// Writes on standard error that a write of the dictionary failed after `written` bytes. If
/// `output` is a named file, its name and the reason follow.
fn tell_unwritten(rt: &HostRuntime, output: &Output<'_>, written: usize) {
    let _ = match (output.name(), output.failed()) {
        (Some(name), Some(kind)) => eprintln!(rt;
            "shape_tally: I2 write failed after {written} bytes: {}: {}",
            Shown(name),
            why_unwritten(kind)
        ),
        _ => eprintln!(rt; "shape_tally: I2 write failed after {written} bytes"),
    };
}

/// Returns in a few words why the dictionary of one part of the inputs could not be stored in
/// `folder`, judged by what is there now.
fn why_unkept(rt: &HostRuntime, folder: &str) -> &'static str {
    match fs::metadata(rt, folder) {
        Ok(found) if found.is_dir() => "a file there could not be made or written",
        Ok(_) => "it is no folder",
        Err(_) => "no such folder",
    }
}

/// Writes a line on standard error that says why a count ended. The line has the name of `output`
/// if a write failed, or of `folder`, where the dictionaries of parts wait to be joined, if one of
/// these could not be stored or read. Returns the exit status.
pub fn tell_fault(rt: &HostRuntime, fault: &PartsFault, output: &Output<'_>, folder: &str) -> u8
    ensures { result ≡ status_of fault.now }
{
    match fault {
        PartsFault::Unwanted => {
            let _ = eprintln!(rt; "shape_tally: nothing is written, by --strict");
        }
        PartsFault::Spill => {
            let why = why_unkept(rt, folder);
            let _ = eprintln!(rt; "shape_tally: {fault}: {}: {why}", Shown(folder));
        }
        PartsFault::Write { written } | PartsFault::Merge(MergeFault::Write { written }) => {
            tell_unwritten(rt, output, *written);
        }
        PartsFault::Merge(MergeFault::Memory { .. }) => {
            let _ = eprintln!(rt; "shape_tally: M1 no memory");
        }
        PartsFault::Merge(fault) => {
            let _ = eprintln!(rt; "shape_tally: {}: {fault}", Shown(folder));
        }
        PartsFault::Memory | PartsFault::Count(_) => {
            let _ = eprintln!(rt; "shape_tally: {fault}");
        }
    }
    status_of(fault)
}
