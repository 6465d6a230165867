//! The inputs of a run that lists hits (times that a pattern was played or was there), one after
//! another, and the sums over them. A failure to print to standard error is ignored.
ghost use Rattle.std.specs.Prelude.{◌≡◌};
ghost use Rattle.shape_hits.specs.Inputs.{first_status, left_after};

use crate::files::write_files;
use crate::words::Asked;
use engine_core::{Outcome, RunFault, status_of};
use game_core::Report;
use game_files::{Fronted, Shown, Source, Why, open_file, sources, status_of as flaw_status};
use hits_core::{Results, Search, Wanted, run_hits};
use std::io::{self, Read};
use std::thread::Threads;

/// The exit status if an input has no tree.
const NO_TREE: u8 = 7;

/// The most SGF files that are written if the command line doesn't say how many.
const MOST_FILES: u64 = 1000;

/// The sums over the inputs so far.
#[derive(Clone, Copy)]
struct Sum {
    /// How many of their trees are games, of other games, and refused.
    report: Report,
    /// Whether there is a hit.
    is_found: bool,
    /// How many hits are still asked for; None for all.
    left: Option<u64>,
    /// How many SGF files may still be written.
    files: u64,
    /// The exit status: that of the first fault, 0 if there is none.
    status: u8,
}

/// What is the same for all inputs of a run.
#[derive(Drop)]
struct Given<'a, T> {
    rt: &'a HostRuntime,
    threads: &'a T,
    asked: &'a Asked<'a>,
    wanted: &'a Wanted,
}

/// Returns the first of two exit statuses that is not 0, or 0 if both are.
fn first_status(before: u8, status: u8) -> u8
    ensures { result ≡ first_status before status }
{
    if before == 0 { status } else { before }
}

/// Returns how many hits are still asked for (None for all) after `listed` more were listed, if
/// `left` were asked for before.
fn left_after(left: Option<u64>, listed: u64) -> Option<u64>
    ensures { result ≡ left_after left listed }
{
    match left {
        Some(left) => Some(left.saturating_sub(listed)),
        None => None,
    }
}

/// The name of an input, shown with a colon before what is said of it; nothing for standard input.
#[derive(Clone, Copy)]
struct Named<'a>(Option<&'a str>);

impl std::fmt::Display for Named<'_> {
    fn fmt<W: std::fmt::Write>(&self, f: &mut std::fmt::Formatter<W>) -> std::fmt::Result {
        match self.0 {
            Some(name) => write!(f, "{}: ", Shown(name)),
            None => Ok(()),
        }
    }
}

/// Returns the sums of the numbers in the reports on two inputs, saturating.
fn both_reports(one: Report, other: Report) -> Report {
    Report {
        games: one.games.saturating_add(other.games),
        others: one.others.saturating_add(other.others),
        refused: one.refused.saturating_add(other.refused),
    }
}

/// Prints to standard error what went wrong with an input. Unless an earlier fault has set the exit
/// status of `sum`, it becomes that of `fault`. A failure to print is ignored.
fn tell(rt: &HostRuntime, sum: &mut Sum, name: Option<&str>, fault: &RunFault) {
    let _ = eprintln!(rt; "shape_hits: {}{fault}", Named(name));
    sum.status = first_status(sum.status, status_of(fault));
}

/// Prints to standard error what is wrong with a name. Unless an earlier fault has set the exit
/// status of `sum`, it becomes that of `why`.
fn tell_flaw(rt: &HostRuntime, sum: &mut Sum, name: &str, why: Why) {
    let _ = eprintln!(rt; "shape_hits: {}: {why}", Shown(name));
    sum.status = first_status(sum.status, flaw_status(why));
}

/// Whether an input has no tree, by the report on it.
fn has_no_tree(report: Report) -> bool {
    report.games == 0 && report.others == 0 && report.refused == 0
}

/// Adds what was found in an input, `results`, to `sum`, and writes an SGF file for each hit if the
/// command line names a folder for them.
fn take_up<T>(given: &Given<'_, T>, sum: &mut Sum, results: &Results) -> Result<(), RunFault> {
    let listed = results.hits.len() as u64;
    if results.outcome == Outcome::Done {
        sum.is_found = true;
    }
    sum.left = left_after(sum.left, listed);
    if let Some(folder) = given.asked.folder {
        let written = write_files(given.rt, folder, sum.report.games, results, sum.files)?;
        sum.files = sum.files.saturating_sub(written);
    }
    sum.report = both_reports(sum.report, results.report);
    Ok(())
}

/// Adds what was found in an input to `sum` and writes the files of its hits, by `take_up`. If that
/// fails, the fault is returned, and printed to standard error unless it was already. The exit
/// status of `sum` becomes that of the fault, unless an earlier fault has set it.
fn taken_up<T>(given: &Given<'_, T>, sum: &mut Sum, results: &Results) -> Result<(), RunFault> {
    let Err(fault) = take_up(given, sum, results) else {
        return Ok(());
    };
    match fault {
        RunFault::Write { .. } => sum.status = first_status(sum.status, status_of(&fault)),
        _ => tell(given.rt, sum, None, &fault),
    }
    Err(fault)
}

/// Prints the hits of an input, and adds its hits and trees to `sum`. `name` is that of its file,
/// None for standard input. What goes wrong is printed to standard error. An error is returned only
/// if the run ends with it: `Write` or `Memory`.
fn list_one<T: Threads + Sync, R: Read>(
    given: &Given<'_, T>,
    sum: &mut Sum,
    name: Option<&str>,
    reader: &mut R,
) -> Result<(), RunFault> {
    let rt = given.rt;
    let search = Search {
        first: sum.report.games,
        most: sum.left,
        name,
        ..given.asked.search
    };
    let mut fronted = Fronted::new(reader);
    let found = run_hits(
        given.threads,
        rt.alloc(),
        given.wanted,
        search,
        usize::from(given.asked.workers),
        &mut fronted,
        &mut rt.stdout(),
    );
    match found {
        Ok(results) => {
            if has_no_tree(results.report) {
                let cause = fronted.cause();
                let _ = eprintln!(rt; "shape_hits: {}no tree: {cause}", Named(name));
                sum.status = first_status(sum.status, NO_TREE);
            }
            taken_up(given, sum, &results)
        }
        Err(fault) => {
            tell(rt, sum, name, &fault);
            match fault {
                RunFault::Write { .. } | RunFault::Memory => Err(fault),
                _ => Ok(()),
            }
        }
    }
}

/// Prints the hits of one input, or prints to standard error what is wrong with a name. An error is
/// returned only if the run ends with it: `Write` or `Memory`.
fn list_source<T: Threads + Sync>(
    given: &Given<'_, T>,
    sum: &mut Sum,
    source: &Source,
) -> Result<(), RunFault> {
    let rt = given.rt;
    match source {
        Source::Input => list_one(given, sum, None, &mut rt.stdin()),
        Source::File(name) => match open_file(rt, name) {
            Ok(Ok(mut file)) => list_one(given, sum, Some(name), &mut file),
            Ok(Err(why)) => {
                tell_flaw(rt, sum, name, why);
                Ok(())
            }
            Err(_refused) => {
                tell(rt, sum, Some(name), &RunFault::Memory);
                Err(RunFault::Memory)
            }
        },
        Source::Flaw(flaw) => {
            tell_flaw(rt, sum, &flaw.name, flaw.why);
            Ok(())
        }
    }
}

/// Returns the exit status of a run that read all its inputs: that of the first fault. If there is
/// none, 0 if a hit was found, and else 1.
fn exit_status(sum: &Sum) -> u8 {
    match (sum.status, sum.is_found) {
        (0, true) => 0,
        (0, false) => 1,
        (status, _) => status,
    }
}

/// Prints the hits of `wanted` in all inputs that `asked` names, one after another. At the end it
/// prints to standard error how many trees were games, of other games, and refused, unless a fault
/// ended the run before. Returns the exit status.
///
/// # Errors
///
/// `Memory` if memory for the names was refused. What else goes wrong is printed to standard error,
/// and is in the exit status.
pub fn list_all<T: Threads + Sync>(
    rt: &HostRuntime,
    threads: &T,
    asked: &Asked<'_>,
    wanted: &Wanted,
) -> Result<u8, RunFault> {
    let given = Given {
        rt,
        threads,
        asked,
        wanted,
    };
    let mut sum = Sum {
        report: Report {
            games: 0,
            others: 0,
            refused: 0,
        },
        is_found: false,
        left: asked.search.most,
        files: asked.search.most.unwrap_or(MOST_FILES),
        status: 0,
    };
    let all = sources(rt, &asked.names)?;
    for source in &all {
        if list_source(&given, &mut sum, source).is_err() {
            return Ok(sum.status);
        }
    }
    let Report {
        games,
        others,
        refused,
    } = sum.report;
    let _ = eprintln!(rt; "shape_hits: games {games} other {others} refused {refused}");
    Ok(exit_status(&sum))
}
