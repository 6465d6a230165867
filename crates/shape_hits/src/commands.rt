//! Defines the command line of `shape_hits` for `clap`. Contracts fix the names and rules of
//! arguments; no clause speaks of the texts of help.
ghost use Rattle.std.specs.Prelude.{◌≡◌, false, IfOk};
ghost use Rattle.clap.specs.Words.{app_of, rule_of};
ghost use Rattle.shape_hits.specs.Commands.{most_rule, patterns_app, program_app};

use clap::{Arg, Command, value_parser};
use command_lines::{
    colour_argument, diamond_argument, files_argument, flag_argument, glyphs_argument,
    option_argument, program_named, with_argument, workers_argument,
};
use std::alloc::{AllocError, Global};

/// The end of the program's help.
const NOTES: &str =
    "FILE is a collection of up to 268,435,456 bytes; a folder stands for all files below it whose names
end in .sgf, and - for standard input, which is read where no file is named. A line for each time that
the pattern was played, or was there:

  3 17 dp black 2051    in game 3, at move 17, at the point dp, with Black to move; the game is at byte 2051

Games count from 0 as `shapes count` numbers them, through all files, moves from 1 with passes among
them, and a point is spelled as SGF spells it; with --coordinates as boards are labelled, as Q16. With
--words each line begins with the pattern's word, and the lines of a named file end with its name.

The glyphs are: . an empty point, X a black stone, O a white one, # off the board. Those of a square
come in five rows of 5 from the top, those of a diamond in rows of 1, 3, 5, 7, 5, 3 and 1. The point
itself is the 13th. Turned, mirrored and with the colours exchanged it is the same pattern.

  shape_hits '......XO.................' black games
  shape_hits --words list --most 20 --sgf hits games

The files in FOLDER are named as game-000003-move-017-dp.sgf, for the hit of the line above: the position
before the move with a mark on the point, and the move as a branch. None is written over.

Exit status: 0 found, 1 not found, 2 wrong words, 3 input refused, 5 no memory, 6 a read or a write failed,
7 no tree in an input; of several inputs that of the first fault";

/// Defines `--most`: how many lines are printed at most, a number; without it all are.
fn most_argument<'a>(alloc: Global) -> Arg<'a>
    ensures rule { rule_of result ≡ most_rule }
    ensures local { result.global ≡ false }
{
    option_argument(alloc, "most", "N", "The first N lines and no more").value_parser(value_parser!(
        u64
    ))
}

/// Makes the program's definition for `clap` with its first arguments: those that say which
/// patterns are looked for. `AllocError` if memory was refused.
fn program_of_patterns<'a>(alloc: Global) -> Result<Command<'a>, AllocError>
    ensures { IfOk result (λ command. app_of command ≡ patterns_app) }
{
    let command = program_named(
        alloc,
        "shape_hits",
        "Lists in which games of a collection a pattern is, and where",
        "shape_hits [OPTIONS] GLYPHS COLOUR [FILE|FOLDER]..\n       shape_hits [OPTIONS] --words LIST [FILE|FOLDER]..",
        NOTES,
    );
    let words =
        "Look for the patterns whose words stand first in the lines of this file, as in a dictionary";
    let command = with_argument(command, glyphs_argument(alloc))?;
    let command = with_argument(command, colour_argument(alloc))?;
    let command = with_argument(command, diamond_argument(alloc))?;
    let command = with_argument(command, option_argument(alloc, "words", "LIST", words))?;
    Ok(command)
}

/// Makes the program's definition for `clap`, with all its arguments.
///
/// # Errors
///
/// `AllocError` if memory was refused.
pub fn program<'a>(alloc: Global) -> Result<Command<'a>, AllocError>
    ensures { IfOk result (λ command. app_of command ≡ program_app) }
{
    let there = "Each time that a pattern was there, and not only when it was played";
    let coordinates = "Points as boards are labelled, as N14, in place of the letters that SGF has";
    let workers = "How many threads search, from 1 to 64; the lines are the same for any number";
    let sgf =
        "Write an SGF file for each hit into this folder, for 1000 at most unless --most says how many";
    let command = program_of_patterns(alloc)?;
    let command = with_argument(command, flag_argument(alloc, "there", there))?;
    let command = with_argument(command, flag_argument(alloc, "coordinates", coordinates))?;
    let command = with_argument(command, most_argument(alloc))?;
    let command = with_argument(command, workers_argument(alloc, workers))?;
    let command = with_argument(command, option_argument(alloc, "sgf", "FOLDER", sgf))?;
    let command = with_argument(command, files_argument(alloc))?;
    Ok(command)
}
