//! The command line of `shape_games`, defined for `clap`.
ghost use Rattle.std.specs.Prelude.{◌≡◌, false, IfOk};
ghost use Rattle.clap.specs.Words.{app_of, rule_of};
ghost use Rattle.shape_games.specs.Commands.{where_rule, program_app};

use clap::{Arg, ArgAction, Command};
use command_lines::{files_argument, flag_argument, option_argument, program_named, with_argument};
use std::alloc::{AllocError, Global};

/// The end of the program's help.
const NOTES: &str =
    "FILE is a collection of up to 268,435,456 bytes; a folder stands for all files below it whose names
end in .sgf, and - for standard input, which is read where no file is named. A line for each tree:

  0 0 812 game 19x19 moves 212 occasions 212    game 0, from byte 0 to byte 812
  - 812 840 other                               a tree of another game
  - 840 901 refused G2 bad point at 877         a game whose record has a fault
  - 901 999 fault S2 bad byte at 950            the last line: no tree can be read from here on

An occasion is a move onto an empty point. The lines of a named file end with its name. Games are
numbered through all files. With --info a line has columns with tabs between them: number, from, to,
what, size, moves, occasions, PB, PW, BR, WR, DT, RE, HA, KM and the file's name.

KEY is SZ, PB, PW, BR, WR, DT, RE, HA or KM; a * at the end of VALUE stands for any rest:

  shape_games --where SZ=19 --where 'DT=1990*' --cut games > some.sgf

With --twice a line has columns: the number of the game, that of the first that is like it, where each
begins and ends, and the names of both files.

Exit status: 0 done, 1 no tree, 2 wrong words, 3 input refused, 5 no memory, 6 a read or a write failed;
of several files that of the first fault";

/// Defines `--where`: a condition `KEY=VALUE` for games; it may be given several times.
fn where_argument<'a>(alloc: Global) -> Arg<'a>
    ensures rule { rule_of result ≡ where_rule }
    ensures local { result.global ≡ false }
{
    option_argument(
        alloc,
        "where",
        "KEY=VALUE",
        "Only games of which this holds; may be given several times, and then all have to hold",
    )
    .action(ArgAction::Append)
}

/// Makes the program's definition for `clap`, with all its arguments.
///
/// # Errors
///
/// `AllocError` if memory was refused.
pub fn program<'a>(alloc: Global) -> Result<Command<'a>, AllocError>
    ensures { IfOk result (λ command. app_of command ≡ program_app) }
{
    let command = program_named(
        alloc,
        "shape_games",
        "Lists the trees of collections: where each is, and what",
        "shape_games [OPTIONS] [FILE|FOLDER]..",
        NOTES,
    );
    let info = "Columns, and among them who played, when, and how the game ended";
    let cut = "The games themselves, each as it stands in its file";
    let twice = "A line for each game whose board, setup and moves an earlier one has";
    let command = with_argument(command, flag_argument(alloc, "info", info))?;
    let command = with_argument(command, where_argument(alloc))?;
    let command = with_argument(command, flag_argument(alloc, "cut", cut))?;
    let command = with_argument(command, flag_argument(alloc, "twice", twice))?;
    let command = with_argument(command, files_argument(alloc))?;
    Ok(command)
}
