//! The command line of `shape_sheet`, defined for `clap`.
ghost use Rattle.std.specs.Prelude.{◌≡◌, false, IfOk};
ghost use Rattle.clap.specs.Words.{app_of, rule_of};
ghost use Rattle.shape_sheet.specs.Commands.{by_rule, least_rule, most_rule, program_app};

use clap::{Arg, Command, value_parser};
use command_lines::{flag_argument, option_argument, program_named, with_argument};
use std::alloc::{AllocError, Global};

/// The end of the program's help.
const NOTES: &str =
    "The dictionary is read from standard input, in any of its three texts, up to 268,435,456 bytes. Colours
are seen from the mover, as Black. With --by urgency the ratio of plays decides, and with --by bound what it
is at least for a chance of 95 %, so that a pattern that was there a few times alone comes late.

Examples:
  shape_sheet < games.dict > page.html
  shape_sheet --by urgency --least 100 --most 20 --plain < games.dict
  shape_sheet --by bound --hits hits.txt < games.dict > page.html

Exit status: 0 done, 2 wrong words, 3 input refused, 5 no memory, 6 a read or a write failed";

/// Defines `--by`: the name of an order of patterns, which is `played` if none is given.
fn by_argument<'a>(alloc: Global) -> Arg<'a>
    ensures rule { rule_of result ≡ by_rule }
    ensures local { result.global ≡ false }
{
    option_argument(
        alloc,
        "by",
        "ORDER",
        "What comes first: played, urgency, there or bound",
    )
    .default_value("played")
}

/// Defines `--least`: how often a pattern that is shown was there at least; a number from 1 on,
/// which is 1 if none is given.
fn least_argument<'a>(alloc: Global) -> Arg<'a>
    ensures rule { rule_of result ≡ least_rule }
    ensures local { result.global ≡ false }
{
    option_argument(
        alloc,
        "least",
        "M",
        "Only patterns that were there at least this often",
    )
    .value_parser(value_parser!(u64).range(1..))
    .default_value("1")
}

/// Defines `--most`: a number from 1 to 10000, which is 50 if none is given.
fn most_argument<'a>(alloc: Global) -> Arg<'a>
    ensures rule { rule_of result ≡ most_rule }
    ensures local { result.global ≡ false }
{
    option_argument(
        alloc,
        "most",
        "N",
        "How many patterns are printed at most, from 1 to 10000",
    )
    .value_parser(value_parser!(u16).range(1..=10000))
    .default_value("50")
}

/// Makes the program's definition for `clap`, with all its arguments.
///
/// # Errors
///
/// `AllocError` if memory was refused.
pub fn program<'a>(alloc: Global) -> Result<Command<'a>, AllocError>
    ensures { IfOk result (λ command. app_of command ≡ program_app) }
{
    let command = program_named(
        alloc,
        "shape_sheet",
        "Draws the first patterns of a dictionary, as a page of HTML or as text",
        "shape_sheet [OPTIONS] < DICTIONARY",
        NOTES,
    );
    let diamonds = "Diamonds and not squares";
    let plain = "Text for a terminal and not a page";
    let hits =
        "Lines of shape_hits --words: the first places of a pattern stand below it on the page";
    let command = with_argument(command, by_argument(alloc))?;
    let command = with_argument(command, least_argument(alloc))?;
    let command = with_argument(command, most_argument(alloc))?;
    let command = with_argument(command, flag_argument(alloc, "diamonds", diamonds))?;
    let command = with_argument(command, flag_argument(alloc, "plain", plain))?;
    let command = with_argument(command, option_argument(alloc, "hits", "FILE", hits))?;
    Ok(command)
}
