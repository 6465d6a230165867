//! The fate of each input (what came of it), what came of all together, and the lines of the
//! report.
ghost use Rattle.std.specs.Prelude.{◌≡◌, ◌↔◌, IsTrue};
ghost use Rattle.shape_tally.specs.Sums.{IsGood, IsWhole, status_of};
ghost use Rattle.shape_tally.specs.declared.reports.Fate.TheVariants as fate;

use crate::drafts::Output;
use game_core::{GamesFault, Report};
use game_files::{Cause, Shown, Source, Why};
use sgf_core::SgfFault;
use std::alloc::{AllocError, Global};
use std::io::Write;
use std::{fmt, io};

/// How many bytes of a report are collected, at least, before they are written.
const BLOCK: usize = 1 << 16;

/// What came of one input.
#[derive(Clone, Copy, Debug, PartialEq, Eq)]
pub enum Fate {
    /// It was not read.
    Waiting,
    /// Its name can't be opened, or is that of a folder with this flaw.
    Flawed(Why),
    /// A read of it failed.
    Unread,
    /// It has this fault of syntax or size, or memory for it was refused; so it is left out.
    Faulty(SgfFault),
    /// It has no game tree. Its first bytes suggest this cause, such as that it is packed by gzip.
    Treeless(Cause),
    /// It has game trees, which are counted in `report`. Its first game has the number `first` in
    /// the dictionary, from 0.
    Counted { report: Report, first: u64 },
}

/// What came of all inputs so far, in numbers. All numbers saturate.
#[derive(Clone, Copy, Debug, PartialEq, Eq)]
pub struct Sum {
    /// How many inputs there are, including those that are left out.
    pub files: u64,
    /// How many trees are games of Go, how many are other games, and how many are refused, in the
    /// inputs that are not left out.
    pub report: Report,
    /// How many inputs are left out.
    pub left_out: u64,
    /// How many inputs have no tree.
    pub treeless: u64,
    /// How many folders have no file of games.
    pub bare: u64,
    /// How many names are passed over, since they are not UTF-8.
    pub passed_over: u64,
}

/// Returns the fate of an input, which is what came of it: `found` is the report on its trees, or
/// its fault; `cause` is what it may be if it has no tree; `games` is how many games were counted
/// before it.
pub fn fate_of(found: Result<Report, GamesFault>, cause: Cause, games: u64) -> Fate {
    match found {
        Ok(report) if report.games == 0 && report.others == 0 && report.refused == 0 => {
            Fate::Treeless(cause)
        }
        Ok(report) => Fate::Counted {
            report,
            first: games,
        },
        Err(GamesFault::Sgf(fault)) => Fate::Faulty(fault),
        Err(GamesFault::Memory) => Fate::Faulty(SgfFault::Memory),
    }
}

/// Returns a report with the sums of the numbers of two reports, saturating.
fn both_reports(one: Report, other: Report) -> Report {
    Report {
        games: one.games.saturating_add(other.games),
        others: one.others.saturating_add(other.others),
        refused: one.refused.saturating_add(other.refused),
    }
}

impl Sum {
    /// Makes the sum over no inputs: all its numbers are 0.
    pub fn new() -> Sum
        ensures { IsWhole result }
    {
        Sum {
            files: 0,
            report: Report {
                games: 0,
                others: 0,
                refused: 0,
            },
            left_out: 0,
            treeless: 0,
            bare: 0,
            passed_over: 0,
        }
    }

    /// Returns this sum with one more input, which is left out.
    fn with_left_out(self) -> Sum
        ensures { IsWhole result → ⊥ }
    {
        Sum {
            files: self.files.saturating_add(1),
            left_out: self.left_out.saturating_add(1),
            ..self
        }
    }

    /// Returns this sum with one more name that gives no input, for the reason `why`; `PassedOver`
    /// stands for several names.
    fn with_flaw(self, why: Why) -> Sum
        ensures { IsWhole result ↔ (IsWhole self × IsGood (fate.Flawed why)) }
    {
        match why {
            Why::PassedOver(names) => Sum {
                passed_over: self.passed_over.saturating_add(names),
                ..self
            },
            Why::NoGames => Sum {
                bare: self.bare.saturating_add(1),
                ..self
            },
            Why::Missing | Why::Denied | Why::Circle | Why::Unopened => self.with_left_out(),
        }
    }

    /// Returns this sum with one more input, of which `fate` came. `Fate::Waiting` changes nothing.
    pub fn with(self, fate: Fate) -> Sum
        ensures { IsWhole result ↔ (IsWhole self × IsGood fate) }
    {
        match fate {
            Fate::Waiting => self,
            Fate::Flawed(why) => self.with_flaw(why),
            Fate::Unread | Fate::Faulty(_) => self.with_left_out(),
            Fate::Treeless(_) => Sum {
                files: self.files.saturating_add(1),
                treeless: self.treeless.saturating_add(1),
                ..self
            },
            Fate::Counted { report, .. } => Sum {
                files: self.files.saturating_add(1),
                report: both_reports(self.report, report),
                ..self
            },
        }
    }

    /// Whether no input was left out, each has a tree, and each folder a file of games.
    pub fn is_whole(&self) -> bool
        ensures { IsTrue result ↔ IsWhole self.now }
    {
        self.left_out == 0 && self.treeless == 0 && self.bare == 0
    }
}

/// Returns the exit status of a count that ended without a fault, though no dictionary may have
/// been wanted: 0 if no input was left out, each has a tree and each folder a file of games; else
/// 1.
pub fn status_of(sum: &Sum) -> u8
    ensures { result ≡ status_of sum.now }
{
    if sum.is_whole() { 0 } else { 1 }
}

/// Returns the name of an input's file, or the name that has a flaw; None for standard input.
pub fn name_of(source: &Source) -> Option<&str> {
    match source {
        Source::Input => None,
        Source::File(name) => Some(name.as_str()),
        Source::Flaw(flaw) => Some(flaw.name.as_str()),
    }
}

/// What came of an input, printed as the five columns that follow its name in its line of the
/// report.
#[derive(Clone, Copy)]
struct Columns(Fate);

impl fmt::Display for Columns {
    fn fmt<W: fmt::Write>(&self, f: &mut fmt::Formatter<W>) -> fmt::Result {
        match self.0 {
            Fate::Waiting => f.write_str("-\t-\t-\t-\t-"),
            Fate::Flawed(why) => write!(f, "-\t-\t-\t{why}\t-"),
            Fate::Unread => f.write_str("-\t-\t-\tI1 read failed\t-"),
            Fate::Faulty(fault) => write!(f, "-\t-\t-\t{fault}\t-"),
            Fate::Treeless(cause) => write!(f, "0\t0\t0\t{cause}\t-"),
            Fate::Counted { report, first } => {
                let Report {
                    games,
                    others,
                    refused,
                } = report;
                write!(f, "{games}\t{others}\t{refused}\t-\t")?;
                if games == 0 {
                    f.write_str("-")
                } else {
                    write!(f, "{first}")
                }
            }
        }
    }
}

/// Appends an input's line of the report to `block`. `AllocError` if memory was refused.
fn push_line(
    alloc: Global,
    block: &mut Vec<u8>,
    source: &Source,
    fate: Fate,
) -> Result<(), AllocError> {
    let name = Shown(name_of(source).unwrap_or("-"));
    let line = format!(in alloc; "{name}\t{}\n", Columns(fate))?;
    block.extend_from_slice(line.as_bytes())?;
    Ok(())
}

/// Writes the report to `output`: a line for each of `sources`, with its name and what came of it.
/// `fates` has what came of each, in the order of `sources`. The output is not finished.
///
/// # Errors
///
/// An error of the output, or that memory was refused; some of the lines may be written then.
pub fn write_lines(
    alloc: Global,
    sources: &[Source],
    fates: &[Fate],
    output: &mut Output<'_>,
) -> io::Result<()> {
    let mut block = Vec::new(alloc);
    for (source, fate) in sources.iter().zip(fates.iter()) {
        push_line(alloc, &mut block, source, *fate)?;
        if block.len() >= BLOCK {
            output.write_all(block.as_slice())?;
            block.clear();
        }
    }
    output.write_all(block.as_slice())
}
