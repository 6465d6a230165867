//! The command line of `shape_merge`, defined for `clap`.
ghost use Rattle.std.specs.Prelude.{◌≡◌, false, IfOk};
ghost use Rattle.clap.specs.Words.{app_of, rule_of};
ghost use Rattle.shape_merge.specs.Commands.{least_rule, out_rule, dictionaries_rule, program_app};

use clap::{Arg, Command, value_parser};
use command_lines::{names_argument, option_argument, program_named, text_argument, with_argument};
use std::alloc::{AllocError, Global};

/// The end of the program's help.
const NOTES: &str =
    "Each file is a dictionary of its own, in any of the three texts, of any size. The games of each
are numbered after those of the files before it. Each is read more than once, so it has to be a
regular file.

With --least N the dictionary has the squares alone that were there N times or oftener in the join: its
games are those of the join, and its moves are those at which one of them was played.

Examples:
  shape_merge a.dict b.dict > all.dict
  shape_merge --text 3 -o all.dict parts/*.dict
  shape_merge --least 10 all.dict > often.dict

Exit status: 0 done, 2 wrong words, 3 input refused, 5 no memory, 6 a read or a write failed";

/// Defines `--least`: a number from 1 on. Only squares that were there at least that often in the
/// join are written.
fn least_argument<'a>(alloc: Global) -> Arg<'a>
    ensures rule { rule_of result ≡ least_rule }
    ensures local { result.global ≡ false }
{
    option_argument(
        alloc,
        "least",
        "N",
        "Only squares that were there at least N times in the join",
    )
    .value_parser(value_parser!(u64).range(1..))
}

/// Defines `--out` and `-o`: the name of the file in which the join is written.
fn out_argument<'a>(alloc: Global) -> Arg<'a>
    ensures rule { rule_of result ≡ out_rule }
    ensures local { result.global ≡ false }
{
    option_argument(
        alloc,
        "out",
        "FILE",
        "The file that is written, in place of standard output, once all is judged",
    )
    .short('o')
}

/// Defines the positional argument DICTIONARY, with one value or more: the names of the files.
fn dictionaries_argument<'a>(alloc: Global) -> Arg<'a>
    ensures rule { rule_of result ≡ dictionaries_rule }
    ensures local { result.global ≡ false }
{
    let help = "The dictionaries' files, in their order";
    names_argument(alloc, "dictionaries", "DICTIONARY", help).required(true)
}

/// Makes the program's definition for `clap`, with all its arguments.
///
/// # Errors
///
/// `AllocError` if memory was refused.
pub fn program<'a>(alloc: Global) -> Result<Command<'a>, AllocError>
    ensures { IfOk result (λ command. app_of command ≡ program_app) }
{
    let command = program_named(
        alloc,
        "shape_merge",
        "Joins dictionaries of Go patterns",
        "shape_merge [OPTIONS] DICTIONARY.. > DICTIONARY",
        NOTES,
    );
    let text = "Which text is written: 1 squares, 2 diamonds too, 3 first games besides";
    let command = with_argument(command, text_argument(alloc, text))?;
    let command = with_argument(command, least_argument(alloc))?;
    let command = with_argument(command, out_argument(alloc))?;
    let command = with_argument(command, dictionaries_argument(alloc))?;
    Ok(command)
}
