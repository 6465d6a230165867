//! The inputs of a run, one after another, and what is kept over all of them: how many trees were
//! games, of other games, and refused; the games met so far (to find those that are there twice);
//! and the exit status. A failure to print to standard error is ignored.
ghost use Rattle.std.specs.Prelude.{◌≡◌, ◌≤◌, IfSome};
ghost use Rattle.listing_core.specs.Listing.{most_first};
ghost use Rattle.shape_games.specs.Inputs.{first_status};

use crate::outputs::Output;
use crate::telling::{Named, tell_flaw, tell_no_tree};
use crate::words::{Asked, Work};
use engine_core::{RunFault, status_of};
use game_core::Report;
use game_files::{Fronted, Source, open_file, sources, status_of as flaw_status};
use listing_core::{Asked as Listing, Listed, MOST_FIRST, Summary, run_listing};
use sgf_core::SgfFault;
use std::io::{self, Read};
use twins_core::{Twins, run_twins};

/// The sums over the inputs so far.
#[derive(Drop)]
struct Sum {
    /// How many of their trees are games, of other games, and refused.
    report: Report,
    /// The first game of each record so far, if a line is asked for each game whose record an
    /// earlier one has; else no game.
    twins: Twins,
    /// Whether anything was written.
    is_written: bool,
    /// The exit status: that of the first fault, 0 if there is none.
    status: u8,
}

/// Returns the first of two exit statuses that is not 0, or 0 if both are.
fn first_status(before: u8, status: u8) -> u8
    ensures { result ≡ first_status before status }
{
    if before == 0 { status } else { before }
}

/// Returns the number of the next input's first game, or None if that would be over 2^63.
fn next_first(sum: &Sum) -> Option<u64>
    ensures { IfSome result (λ first. first ≤ most_first) }
{
    if sum.report.games > MOST_FIRST {
        return None;
    }
    Some(sum.report.games)
}

/// Returns the sums of the numbers of two reports, saturating.
fn joined(before: Report, more: Report) -> Report {
    Report {
        games: before.games.saturating_add(more.games),
        others: before.others.saturating_add(more.others),
        refused: before.refused.saturating_add(more.refused),
    }
}

/// Whether a run ends with this fault, and reads no further input: a write failed, or memory was
/// refused.
fn ends_run(fault: &RunFault) -> bool {
    match fault {
        RunFault::Write { .. } => true,
        _ => status_of(fault) == 5,
    }
}

/// Writes to standard output what `asked` asks for of one input, and notes in `sum` whether
/// anything was written. `name` is that of the input's file, None for standard input. Returns how
/// many trees of the input are games, of other games, and refused, and how its reading ended. The
/// error is that of the listing or of the search for twins, or `Sgf` with S4 (input too large) if
/// the number of the input's first game would be over 2^63.
fn write_of<R: Read>(
    rt: &HostRuntime,
    asked: &Asked<'_>,
    sum: &mut Sum,
    name: Option<&str>,
    reader: &mut R,
) -> Result<Summary, RunFault> {
    let Some(first) = next_first(sum) else {
        return Err(RunFault::Sgf(SgfFault::TooLarge));
    };
    let alloc = rt.alloc();
    let mut output = Output {
        rt,
        is_written: sum.is_written,
    };
    let result = match asked.work {
        Work::List(form) => {
            let listing = Listing {
                form,
                conditions: &asked.conditions,
                first,
                name,
            };
            run_listing(alloc, &listing, reader, &mut output)
        }
        Work::Twins => run_twins(alloc, &mut sum.twins, first, name, reader, &mut output),
    };
    sum.is_written = output.is_written;
    result
}

/// Prints to standard error what went wrong with an input. Unless an earlier fault has set the exit
/// status of `sum`, it becomes that of `fault`. A failure to print is ignored.
fn tell(rt: &HostRuntime, sum: &mut Sum, name: Option<&str>, fault: &RunFault) {
    let _ = eprintln!(rt; "shape_games: {}{fault}", Named(name));
    sum.status = first_status(sum.status, status_of(fault));
}

/// Writes what is asked for of one input, and adds its trees to `sum`. What goes wrong is printed
/// to standard error; an error is returned only if the run ends with it.
fn take_input<R: Read>(
    rt: &HostRuntime,
    asked: &Asked<'_>,
    sum: &mut Sum,
    name: Option<&str>,
    reader: &mut R,
) -> Result<(), RunFault> {
    let mut input = Fronted::new(reader);
    let summary = match write_of(rt, asked, sum, name, &mut input) {
        Ok(summary) => summary,
        Err(fault) if ends_run(&fault) => return Err(fault),
        Err(fault) => {
            tell(rt, sum, name, &fault);
            return Ok(());
        }
    };
    sum.report = joined(sum.report, summary.report);
    match summary.listed {
        Listed::Done => {}
        Listed::NoTree => {
            tell_no_tree(rt, name, input.cause());
            sum.status = first_status(sum.status, 1);
        }
        Listed::Fault(fault) => tell(rt, sum, name, &RunFault::Sgf(fault)),
    }
    Ok(())
}

/// Writes what is asked for of one input, or prints to standard error what is wrong with a name. An
/// error is returned only if the run ends with it.
fn take(
    rt: &HostRuntime,
    asked: &Asked<'_>,
    sum: &mut Sum,
    source: &Source,
) -> Result<(), RunFault> {
    match source {
        Source::Input => take_input(rt, asked, sum, None, &mut rt.stdin()),
        Source::File(name) => match open_file(rt, name.as_str())? {
            Ok(mut file) => take_input(rt, asked, sum, Some(name.as_str()), &mut file),
            Err(why) => {
                tell_flaw(rt, name.as_str(), why);
                sum.status = first_status(sum.status, flaw_status(why));
                Ok(())
            }
        },
        Source::Flaw(flaw) => {
            tell_flaw(rt, flaw.name.as_str(), flaw.why);
            sum.status = first_status(sum.status, flaw_status(flaw.why));
            Ok(())
        }
    }
}

/// Writes what is asked for of all `inputs`, one after another. Returns the fault that ended the
/// run before all were read, or None if none did.
fn take_all(
    rt: &HostRuntime,
    asked: &Asked<'_>,
    sum: &mut Sum,
    inputs: &[Source],
) -> Option<RunFault> {
    for source in inputs {
        if let Err(fault) = take(rt, asked, sum, source) {
            return Some(fault);
        }
    }
    None
}

/// Whether conditions were given and nothing was written, although the inputs had games or no
/// fault.
fn is_in_vain(asked: &Asked<'_>, sum: &Sum) -> bool {
    let are_some = sum.report.games > 0 || sum.status == 0;
    !asked.conditions.is_empty() && !sum.is_written && are_some
}

/// Prints to standard error how many trees were games, of other games, and refused. If conditions
/// were given and no game was chosen, a line before says so, and the exit status becomes 1 unless
/// there was an earlier fault; but if no input had a game and there was a fault, there is no such
/// line.
fn sum_up(rt: &HostRuntime, asked: &Asked<'_>, sum: &mut Sum) {
    if is_in_vain(asked, sum) {
        let _ = eprintln!(rt; "shape_games: no game is chosen");
        sum.status = first_status(sum.status, 1);
    }
    let report = sum.report;
    let _ = eprintln!(rt;
        "shape_games: games {} other {} refused {}",
        report.games, report.others, report.refused
    );
}

/// Writes what is asked for of all inputs that the command line names. Prints to standard error
/// what went wrong and, at the end, how many trees were games, of other games, and refused. It
/// returns the exit status.
///
/// # Errors
///
/// The fault of a write that failed, or of memory that was refused; no further input is read then.
pub fn list_all(rt: &HostRuntime, asked: &Asked<'_>) -> Result<u8, RunFault> {
    let mut sum = Sum {
        report: Report {
            games: 0,
            others: 0,
            refused: 0,
        },
        twins: Twins::new(rt.alloc()),
        is_written: false,
        status: 0,
    };
    let inputs = sources(rt, &asked.files)?;
    if let Some(fault) = take_all(rt, asked, &mut sum, &inputs) {
        return Err(fault);
    }
    sum_up(rt, asked, &mut sum);
    Ok(sum.status)
}
