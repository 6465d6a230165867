//! Defines the command line of `shapes` for `clap`: one subcommand for each task. Contracts fix the
//! names and rules of arguments; no clause speaks of the texts of help.
ghost use Rattle.std.specs.Prelude.{◌≡◌, false, codes, IfOk};
ghost use Rattle.clap.specs.Words.{app_of, new_app, rule_of};
ghost use Rattle.clap.specs.declared.Command.TheViews.{out-Command as fields_of};
ghost use Rattle.shapes_line.specs.Commands.{bits_rule, count_app, find_app, join_app, program_app};
ghost use Rattle.shapes_line.specs.Commands.{required_word};

use clap::{Arg, Command, value_parser};
use command_lines::{
    colour_argument, command_named, diamond_argument, glyphs_argument, option_argument,
    program_named, text_argument, with_argument, with_command, workers_argument,
};
use std::alloc::{AllocError, Global};

/// The end of the program's help.
const NOTES: &str =
    "Without a command it does what `board` does. Input is read from standard input alone, up to
268,435,456 bytes; what is wrong with it is said in one line on standard error.

Examples:
  cat games/*.sgf | shapes count > games.dict
  shapes find '......XO.................' black < games.dict
  cat a.dict b.dict | shapes join > all.dict

Exit status: 0 done, 1 not found, 2 wrong words, 3 input refused, 4 more patterns than the table
has room for, 5 no memory, 6 a read or a write failed";

/// The end of the help of `count`.
const COUNT_NOTES: &str =
    "A line of the dictionary is a pattern's word, how often the pattern was there when somebody was to
move, how often that point was then played, and in text 3 the first game that had it, from 0. Standard
error says how many trees were games, were of other games, and were refused for a fault in their
record. A fault of syntax anywhere refuses the whole input.

Exit status: 0 done, 2 wrong words, 3 input refused, 4 more patterns than the table has room for,
5 no memory, 6 a read or a write failed";

/// The end of the help of `find`.
const FIND_NOTES: &str =
    "The glyphs are: . an empty point, X a black stone, O a white one, # off the board. Those of a square
come in five rows of 5 from the top, those of a diamond in rows of 1, 3, 5, 7, 5, 3 and 1. The point
itself is the 13th. Turned, mirrored and with the colours exchanged it is the same pattern.

Exit status: 0 found, 1 not found (the line then ends in 0 0), 2 wrong words, 3 input refused, 5 no
memory, 6 a read or a write failed";

/// The end of the help of `join`.
const JOIN_NOTES: &str =
    "The games of each dictionary are numbered after those of the dictionaries before it.

Exit status: 0 done, 2 wrong words, 3 input refused, 5 no memory, 6 a read or a write failed";

/// What help says of `--text`.
const TEXT_HELP: &str =
    "1: squares; 2: squares and diamonds; 3: both, with the first game of each pattern";

/// Defines the subcommand `board`, which has no arguments.
fn board_command<'a>(alloc: Global) -> Command<'a>
    ensures app { app_of result ≡ new_app (codes "board") }
    ensures local { (fields_of result).has_globals ≡ false }
{
    Command::new(alloc, "board")
        .about("Prints the final position of the first game of a collection")
        .override_usage("shapes board < GAMES.sgf")
}

/// Defines `--bits`: a number from 0 to 22, which is 20 if none is given.
fn bits_argument<'a>(alloc: Global) -> Arg<'a>
    ensures rule { rule_of result ≡ bits_rule }
    ensures local { result.global ≡ false }
{
    option_argument(
        alloc,
        "bits",
        "K",
        "There is room for 2 to the power of this many patterns, from 0 to 22",
    )
    .value_parser(value_parser!(u8).range(0..=22))
    .default_value("20")
}

/// Defines the subcommand `count` with its options. `AllocError` if memory was refused.
fn count_command<'a>(alloc: Global) -> Result<Command<'a>, AllocError>
    ensures app { IfOk result (λ command. app_of command ≡ count_app) }
    ensures local { IfOk result (λ command. (fields_of command).has_globals ≡ false) }
{
    let command = command_named(
        alloc,
        "count",
        "Prints how often each local pattern was there and was played in a collection of games",
        "shapes count [OPTIONS] < GAMES.sgf > DICTIONARY",
        COUNT_NOTES,
    );
    let workers = "How many threads count, from 1 to 64; the text is the same for any number";
    let command = with_argument(command, workers_argument(alloc, workers))?;
    let command = with_argument(command, bits_argument(alloc))?;
    let command = with_argument(command, text_argument(alloc, TEXT_HELP))?;
    Ok(command)
}

/// Defines the positional argument GLYPHS, which is required.
fn needed_glyphs<'a>(alloc: Global) -> Arg<'a>
    ensures rule { rule_of result ≡ required_word (codes "glyphs") }
    ensures local { result.global ≡ false }
{
    glyphs_argument(alloc).required(true)
}

/// Defines the positional argument COLOUR, which is required.
fn needed_colour<'a>(alloc: Global) -> Arg<'a>
    ensures rule { rule_of result ≡ required_word (codes "colour") }
    ensures local { result.global ≡ false }
{
    colour_argument(alloc).required(true)
}

/// Defines the subcommand `find` with its arguments. `AllocError` if memory was refused.
fn find_command<'a>(alloc: Global) -> Result<Command<'a>, AllocError>
    ensures app { IfOk result (λ command. app_of command ≡ find_app) }
    ensures local { IfOk result (λ command. (fields_of command).has_globals ≡ false) }
{
    let command = command_named(
        alloc,
        "find",
        "Prints how often one pattern was there and was played, by a dictionary",
        "shapes find [OPTIONS] GLYPHS COLOUR < DICTIONARY",
        FIND_NOTES,
    );
    let command = with_argument(command, needed_glyphs(alloc))?;
    let command = with_argument(command, needed_colour(alloc))?;
    let command = with_argument(command, diamond_argument(alloc))?;
    Ok(command)
}

/// Defines the subcommand `join` with its option. `AllocError` if memory was refused.
fn join_command<'a>(alloc: Global) -> Result<Command<'a>, AllocError>
    ensures app { IfOk result (λ command. app_of command ≡ join_app) }
    ensures local { IfOk result (λ command. (fields_of command).has_globals ≡ false) }
{
    let command = command_named(
        alloc,
        "join",
        "Adds up dictionaries that follow one another",
        "cat DICTIONARY.. | shapes join [OPTIONS] > DICTIONARY",
        JOIN_NOTES,
    );
    let command = with_argument(command, text_argument(alloc, TEXT_HELP))?;
    Ok(command)
}

/// Defines the program `shapes` for `clap`, with its subcommands.
///
/// # Errors
///
/// `AllocError` if memory was refused.
pub fn program<'a>(alloc: Global) -> Result<Command<'a>, AllocError>
    ensures { IfOk result (λ command. app_of command ≡ program_app) }
{
    let command = program_named(
        alloc,
        "shapes",
        "Counts local patterns of Go in collections of games (SGF)",
        "shapes [COMMAND] < INPUT",
        NOTES,
    );
    let command = with_command(command, board_command(alloc))?;
    let command = with_command(command, count_command(alloc)?)?;
    let command = with_command(command, find_command(alloc)?)?;
    let command = with_command(command, join_command(alloc)?)?;
    Ok(command)
}
