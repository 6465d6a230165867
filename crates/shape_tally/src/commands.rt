//! The command line of `shape_tally`, defined for `clap`.
ghost use Rattle.std.specs.Prelude.{◌≡◌, false, IfOk};
ghost use Rattle.clap.specs.Words.{app_of, rule_of};
ghost use Rattle.shape_tally.specs.Commands.{counting_app, memory_rule, out_rule, program_app};

use clap::{Arg, Command, value_parser};
use command_lines::{
    files_argument, flag_argument, option_argument, program_named, text_argument, with_argument,
    workers_argument,
};
use std::alloc::{AllocError, Global};

/// The end of the program's help.
const NOTES: &str =
    "FILE is a collection of less than 268,435,456 bytes; a folder stands for all files below it whose
names end in .sgf, and - for standard input, which is read where no file is named. They may be any
number: they are counted in parts, and where there is more than one part the dictionary of each waits in
a file without a name in the folder of --spill, or of TMPDIR. The dictionary is that of all games of all
files, whatever --memory and --workers say.

A file that can't be read, or has a fault of syntax, is left out whole, and standard error says so; the
last line there sums up. With --report FILE that file has a line for each input, with tabs between: its
name, its games, its trees of other games, its refused games, its fault or what it is if it has no tree,
and the number of its first game in the dictionary; - stands for what there is not.

Examples:
  shape_tally games > games.dict
  shape_tally --text 3 --memory 4000 -o games.dict --report games.tsv games
  find games -name '*.sgf' -print0 | shape_tally --null --list - > games.dict

Exit status: 0 done, 1 done but an input was left out or has no tree, 2 wrong words, 5 no memory, 6 a
read or a write failed";

/// Defines `--memory`: a number of megabytes from 64 to 1000000, which is 1024 if none is given.
fn memory_argument<'a>(alloc: Global) -> Arg<'a>
    ensures rule { rule_of result ≡ memory_rule }
    ensures local { result.global ≡ false }
{
    option_argument(
        alloc,
        "memory",
        "MB",
        "About how many megabytes of memory counting takes, from 64 to 1000000",
    )
    .value_parser(value_parser!(u64).range(64..=1000000))
    .default_value("1024")
}

/// Defines `--out` and `-o`: the name of the file in which the dictionary is written.
fn out_argument<'a>(alloc: Global) -> Arg<'a>
    ensures rule { rule_of result ≡ out_rule }
    ensures local { result.global ≡ false }
{
    option_argument(
        alloc,
        "out",
        "FILE",
        "The file that is written in place of standard output, once all is counted",
    )
    .short('o')
}

/// Returns the program's definition for `clap` with its first options: those that say how to count
/// and where the dictionary is written. `AllocError` if memory was refused.
fn program_of_counting<'a>(alloc: Global) -> Result<Command<'a>, AllocError>
    ensures { IfOk result (λ command. app_of command ≡ counting_app) }
{
    let command = program_named(
        alloc,
        "shape_tally",
        "Counts local patterns of Go in collections of any number and size",
        "shape_tally [OPTIONS] [FILE|FOLDER].. > DICTIONARY\n       shape_tally [OPTIONS] --list NAMES > DICTIONARY",
        NOTES,
    );
    let text = "Which text is written: 1 squares, 2 diamonds too, 3 first games besides";
    let workers = "How many threads count, from 1 to 64; the text is the same for any number";
    let command = with_argument(command, text_argument(alloc, text))?;
    let command = with_argument(command, workers_argument(alloc, workers))?;
    let command = with_argument(command, memory_argument(alloc))?;
    let command = with_argument(command, out_argument(alloc))?;
    Ok(command)
}

/// Makes the program's definition for `clap`, with all its arguments.
///
/// # Errors
///
/// `AllocError` if memory was refused.
pub fn program<'a>(alloc: Global) -> Result<Command<'a>, AllocError>
    ensures { IfOk result (λ command. app_of command ≡ program_app) }
{
    let report = "The file that has a line for each input: what it has, or why it is left out";
    let strict = "Nothing is written where an input was left out or has no tree";
    let spill = "The folder of the file in which dictionaries of parts wait";
    let list = "The file that has the names of all inputs, one a line; - is standard input";
    let null = "The names in NAMES end in a zero byte, and not in a line feed";
    let command = program_of_counting(alloc)?;
    let command = with_argument(command, option_argument(alloc, "report", "FILE", report))?;
    let command = with_argument(command, flag_argument(alloc, "strict", strict))?;
    let command = with_argument(command, option_argument(alloc, "spill", "FOLDER", spill))?;
    let command = with_argument(command, option_argument(alloc, "list", "NAMES", list))?;
    let command = with_argument(command, flag_argument(alloc, "null", null))?;
    let command = with_argument(command, files_argument(alloc))?;
    Ok(command)
}
