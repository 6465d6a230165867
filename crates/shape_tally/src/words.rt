//! The words of the command line of `shape_tally`, and the count that they ask for.
ghost use Rattle.std.specs.Prelude.{◌≡◌, ◌≤◌, ◌⊎◌, refl, true, false, map, IfOk, IfErr};
ghost use Rattle.command_lines.specs.Values.{rows_in};
ghost use Rattle.engine_core.specs.declared.faults.RunFault.TheVariants as fault;
ghost use Rattle.shape_tally.specs.Commands.{program_app};
ghost use Rattle.shape_tally.specs.Words.{AreNamed, HasNoNames, HasNoPlan, IsAsked, IsPlanOf, IsUsage};
ghost use Rattle.shape_tally.specs.Words.{most_for, most_memory, need_of};

use crate::commands::program;
use clap::{ArgMatches, Command};
use command_lines::{FromArguments, choice, number, small_number, text_of, word_of, words_of};
use engine_core::RunFault;
use shape_dict::Text;
use std::alloc::{AllocError, Global};
use tally_parts::Plan;

/// How many bytes a megabyte has.
const MEGABYTE: usize = 1 << 20;

/// The greatest number of megabytes of memory that can be asked for.
const MOST_MEMORY: u64 = 1_000_000;

/// What ends the names in a list.
#[derive(Clone, Copy, Debug, PartialEq, Eq)]
pub enum NameEnd {
    /// A line feed: each name is a line.
    LineFeed,
    /// A zero byte after each name.
    Zero,
}

/// How the inputs are named.
#[derive(Debug, Drop)]
pub enum Named<'a> {
    /// These words of the command line, which are files and folders; none ask for standard input.
    Words(Vec<&'a str>),
    /// The names in this `file`, or in standard input if it is `-`; `end` says what ends each.
    List { file: &'a str, end: NameEnd },
}

/// The count that the command line asks for: of which inputs, how, and where its results are
/// written.
#[derive(Debug, Drop)]
pub struct Asked<'a> {
    /// Which text of the dictionary is written, and how the inputs are counted.
    pub plan: Plan,
    /// What names the inputs.
    pub named: Named<'a>,
    /// The name of the dictionary's file; None for standard output.
    pub out: Option<&'a str>,
    /// The name of the report's file, which says what each input has; None if no report is asked
    /// for.
    pub report: Option<&'a str>,
    /// The folder in which the dictionaries of parts wait to be joined; None for the system's
    /// folder of temporary files.
    pub spill: Option<&'a str>,
    /// Whether nothing is written if an input was left out or has no tree, or a folder has no file
    /// of games.
    pub is_strict: bool,
}

/// Returns how many bytes of memory are planned for each byte of game text that is counted at a
/// time. It is the most that counts were seen to need for the game text, its patterns and the text
/// of its dictionary. Diamonds double the patterns. No dictionary depends on this number.
fn need_of(text: Text) -> usize
    ensures { result ≡ need_of text }
{
    match text {
        Text::One => 128,
        Text::Two | Text::Three => 256,
    }
}

/// Returns how many bytes of game text are counted at a time, by the plan of `need_of`, if `memory`
/// megabytes of memory may be taken and the dictionary is written in the text format `text`.
fn most_for(text: Text, memory: u64) -> usize
    requires { memory ≤ most_memory }
    ensures { result ≡ most_for text memory }
{
    memory as usize * MEGABYTE / need_of(text)
}

/// Reads from the command line which text of the dictionary is written, and how the inputs are
/// counted. `Usage` if a number is missing or too large.
fn plan_of(matches: &ArgMatches<'_>) -> Result<Plan, RunFault>
    ensures plan { IfOk result (IsPlanOf (rows_in matches.now)) }
    ensures fault { IfErr result (λ found. (found ≡ fault.Usage)
        × HasNoPlan (rows_in matches.now)) }
{
    let Some(text) = text_of(matches) else {
        return Err(RunFault::Usage);
    };
    let Some(workers) = small_number(matches, "workers") else {
        return Err(RunFault::Usage);
    };
    let Some(memory) = number(matches, "memory") else {
        return Err(RunFault::Usage);
    };
    if memory > MOST_MEMORY {
        return Err(RunFault::Usage);
    }
    Ok(Plan {
        text,
        workers,
        most: most_for(text, memory),
    })
}

/// Reads from the command line how the inputs are named: by words, or by a list. `Usage` if by
/// both; `Memory` if memory was refused.
fn named_of<'a>(alloc: Global, matches: &ArgMatches<'a>) -> Result<Named<'a>, RunFault>
    ensures named { IfOk result (AreNamed (rows_in matches.now)) }
    ensures fault { IfErr result (λ found. (found ≡ fault.Memory) ⊎ ((found ≡ fault.Usage)
        × HasNoNames (rows_in matches.now))) }
{
    let files = words_of(alloc, matches, "files")?;
    let Some(file) = word_of(matches, "list") else {
        return Ok(Named::Words(files));
    };
    if !files.is_empty() {
        return Err(RunFault::Usage);
    }
    Ok(Named::List {
        file,
        end: choice(matches, "null", NameEnd::Zero, NameEnd::LineFeed),
    })
}

impl<'a> FromArguments<'a> for Asked<'a> {
    ghost app = { program_app };

    ghost IsAsked = { IsAsked };

    ghost IsWrong = { λ rows found. (found ≡ fault.Usage) × IsUsage rows };

    ghost simple = { refl };

    fn program(alloc: Global) -> Result<Command<'a>, AllocError> {
        program(alloc)
    }

    /// Returns the count that the command line's values ask for; no values at all ask for text 1 of
    /// standard input. `Usage` if a number is missing or too large, or if both a list and files are
    /// named; `Memory` if memory was refused.
    fn from_values(alloc: Global, matches: &ArgMatches<'a>) -> Result<Asked<'a>, RunFault> {
        let plan = plan_of(matches)?;
        let named = named_of(alloc, matches)?;
        Ok(Asked {
            plan,
            named,
            out: word_of(matches, "out"),
            report: word_of(matches, "report"),
            spill: word_of(matches, "spill"),
            is_strict: choice(matches, "strict", true, false),
        })
    }
}
