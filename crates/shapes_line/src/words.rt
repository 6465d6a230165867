//! Reads the words of the command line of `shapes`, and returns the task that they ask for.
ghost use Rattle.std.specs.Prelude.{◌≡◌, Some, codes, map, string_bytes, IfOk, IfErr};
ghost use Rattle.clap.specs.Words.{subcommand_rows_of};
ghost use Rattle.command_lines.specs.Lines.{IsAskingFault};
ghost use Rattle.command_lines.specs.Texts.{HasNoText};
ghost use Rattle.command_lines.specs.Values.{rows_in};
ghost use Rattle.shapes_line.specs.Commands.{asked_by, program_app};
ghost use Rattle.shapes_line.specs.Words.{HasNoSettings, IsAnswered, IsTaskOf, IsWordsFault, kinds_for};
ghost use Rattle.engine_core.specs.declared.faults.RunFault.TheVariants as fault;

use crate::commands::program;
use clap::ArgMatches;
use command_lines::{Line, read_line, small_number, spelled_pattern, text_of};
use engine_core::RunFault;
use shape_core::{Kinds, Shape};
use shape_dict::Text;
use std::alloc::Global;
use tally_core::Settings;

/// What the program is to do.
#[derive(Debug, Drop)]
pub enum Task {
    /// Print the final position of the first game.
    Board,
    /// Print the dictionary of a collection in this text format, counted with these settings.
    Count(Settings, Text),
    /// Print how often this pattern was there and was played, by a dictionary.
    Find(Shape),
    /// Print the join of dictionaries, in this text format.
    Join(Text),
    /// Print this text of help or version, which was asked for.
    Help(String),
}

/// Returns the kinds of pattern that a text format has lines for.
fn kinds_for(text: Text) -> Kinds
    ensures { result ≡ kinds_for text }
{
    match text {
        Text::One => Kinds::Squares,
        Text::Two | Text::Three => Kinds::Both,
    }
}

/// Returns the task that the values of `count` ask for; `Usage` if a number is missing or out of
/// its range.
fn count_task(matches: &ArgMatches<'_>) -> Result<Task, RunFault>
    ensures task { IfOk result (IsTaskOf (Some (codes "count", rows_in matches.now))) }
    ensures fault { IfErr result (λ found. (found ≡ fault.Usage)
        × HasNoSettings (rows_in matches.now)) }
{
    let Some(text) = text_of(matches) else {
        return Err(RunFault::Usage);
    };
    let Some(workers) = small_number(matches, "workers") else {
        return Err(RunFault::Usage);
    };
    let Some(k) = small_number(matches, "bits") else {
        return Err(RunFault::Usage);
    };
    let settings = Settings::new(workers, k).map_err(|_| RunFault::Usage)?;
    Ok(Task::Count(settings.with(kinds_for(text)), text))
}

/// Returns the task that the values of `find` ask for. `Usage` if the glyphs or the colour are
/// missing, or if the colour is neither black nor white; else `Glyph` if the glyphs are not those
/// of a pattern.
fn find_task(matches: &ArgMatches<'_>) -> Result<Task, RunFault>
    ensures task { IfOk result (IsTaskOf (Some (codes "find", rows_in matches.now))) }
    ensures fault { IfErr result (IsWordsFault (Some (codes "find", rows_in matches.now))) }
{
    match spelled_pattern(matches) {
        Ok(shape) => Ok(Task::Find(shape)),
        Err(fault) => Err(fault),
    }
}

/// Returns the task that the values of `join` ask for; `Usage` if there is no text format of the
/// number that `--text` has.
fn join_task(matches: &ArgMatches<'_>) -> Result<Task, RunFault>
    ensures task { IfOk result (IsTaskOf (Some (codes "join", rows_in matches.now))) }
    ensures fault { IfErr result (λ found. (found ≡ fault.Usage)
        × HasNoText (rows_in matches.now)) }
{
    match text_of(matches) {
        Some(text) => Ok(Task::Join(text)),
        None => Err(RunFault::Usage),
    }
}

/// Returns the task that the subcommand and its values ask for, or `Board` if no subcommand is
/// given.
fn task_of(matches: &ArgMatches<'_>) -> Result<Task, RunFault>
    ensures task { IfOk result (IsTaskOf (subcommand_rows_of matches.now)) }
    ensures fault { IfErr result (IsWordsFault (subcommand_rows_of matches.now)) }
{
    match matches.subcommand() {
        Some(("count", found)) => count_task(found),
        Some(("find", found)) => find_task(found),
        Some(("join", found)) => join_task(found),
        _ => Ok(Task::Board),
    }
}

/// Returns the task that the words after the program's name ask for; no word at all asks for
/// `board`. It takes memory.
///
/// # Errors
///
/// `Usage` if the words are none that the program takes, also if a colour is neither black nor
/// white; else `Glyph` if the glyphs of `find` are not those of a pattern; `Memory` if memory was
/// refused.
pub fn read_arguments(alloc: Global, words: &[String]) -> Result<Task, RunFault>
    ensures task { IfOk result (IsAnswered (map string_bytes words.now)
        (asked_by (map string_bytes words.now))) }
    ensures fault { IfErr result (IsAskingFault program_app (map string_bytes words.now)
        (IsWordsFault (asked_by (map string_bytes words.now)))) }
{
    match read_line(alloc, program(alloc)?, words)? {
        Line::Asked(matches) => task_of(&matches),
        Line::Told(text) => Ok(Task::Help(text)),
    }
}
