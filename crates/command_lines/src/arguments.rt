//! The arguments that several programs take, defined for `clap`.
ghost use Rattle.std.specs.Prelude.{◌≡◌, false, codes};
ghost use Rattle.clap.specs.Words.{rule_of};
ghost use Rattle.command_lines.specs.Arguments.{option_rule, flag_rule, word_rule, names_rule};
ghost use Rattle.command_lines.specs.Arguments.{text_rule, workers_rule};

use clap::{Arg, ArgAction, value_parser};
use std::alloc::Global;

/// Defines an option of this name that takes a value, which help calls `value_name`; `help` is what
/// help says of the option. It takes no memory.
pub fn option_argument<'a>(
    alloc: Global,
    name: &'a str,
    value_name: &'a str,
    help: &'a str,
) -> Arg<'a>
    ensures rule { rule_of result ≡ option_rule name.entry.now }
    ensures local { result.global ≡ false }
{
    Arg::new(alloc, name)
        .long(name)
        .value_name(value_name)
        .help(help)
}

/// Defines a flag of this name; `help` is what help says of it. It takes no memory.
pub fn flag_argument<'a>(alloc: Global, name: &'a str, help: &'a str) -> Arg<'a>
    ensures rule { rule_of result ≡ flag_rule name.entry.now }
    ensures local { result.global ≡ false }
{
    Arg::new(alloc, name)
        .long(name)
        .action(ArgAction::SetTrue)
        .help(help)
}

/// Defines `--text`: a number from 1 to 3, which is 1 if none is given; `help` is what help says of
/// it. It takes no memory.
pub fn text_argument<'a>(alloc: Global, help: &'a str) -> Arg<'a>
    ensures rule { rule_of result ≡ text_rule }
    ensures local { result.global ≡ false }
{
    option_argument(alloc, "text", "T", help)
        .value_parser(value_parser!(u8).range(1..=3))
        .default_value("1")
}

/// Defines `--workers`: a number from 1 to 64, which is 4 if none is given; `help` is what help
/// says of it. It takes no memory.
pub fn workers_argument<'a>(alloc: Global, help: &'a str) -> Arg<'a>
    ensures rule { rule_of result ≡ workers_rule }
    ensures local { result.global ≡ false }
{
    option_argument(alloc, "workers", "W", help)
        .value_parser(value_parser!(u8).range(1..=64))
        .default_value("4")
}

/// Defines the positional argument GLYPHS, which is optional. It takes no memory.
pub fn glyphs_argument<'a>(alloc: Global) -> Arg<'a>
    ensures rule { rule_of result ≡ word_rule (codes "glyphs") }
    ensures local { result.global ≡ false }
{
    Arg::new(alloc, "glyphs")
        .value_name("GLYPHS")
        .help("The 25 points of the pattern, row by row from the top")
}

/// Defines the positional argument COLOUR, which is optional. It takes no memory.
pub fn colour_argument<'a>(alloc: Global) -> Arg<'a>
    ensures rule { rule_of result ≡ word_rule (codes "colour") }
    ensures local { result.global ≡ false }
{
    Arg::new(alloc, "colour")
        .value_name("COLOUR")
        .help("Who is to move: black or white")
}

/// Defines the flag `--diamond`: the GLYPHS are those of a diamond. It takes no memory.
pub fn diamond_argument<'a>(alloc: Global) -> Arg<'a>
    ensures rule { rule_of result ≡ flag_rule (codes "diamond") }
    ensures local { result.global ≡ false }
{
    flag_argument(
        alloc,
        "diamond",
        "The glyphs are those of a diamond and not of a square",
    )
}

/// Defines a positional argument of this name, with any number of values, which help calls
/// `value_name`; `help` is what help says of the argument. It takes no memory.
pub fn names_argument<'a>(
    alloc: Global,
    name: &'a str,
    value_name: &'a str,
    help: &'a str,
) -> Arg<'a>
    ensures rule { rule_of result ≡ names_rule name.entry.now }
    ensures local { result.global ≡ false }
{
    Arg::new(alloc, name)
        .value_name(value_name)
        .num_args(1..)
        .help(help)
}

/// Defines the positional argument FILE, with any number of values: the names of collections and
/// folders. It takes no memory.
pub fn files_argument<'a>(alloc: Global) -> Arg<'a>
    ensures rule { rule_of result ≡ names_rule (codes "files") }
    ensures local { result.global ≡ false }
{
    names_argument(
        alloc,
        "files",
        "FILE",
        "Collections of games, and folders of such, in their order",
    )
}
