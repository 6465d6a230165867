//! Looks up the value or values of one option, word (positional argument) or flag.
ghost use Rattle.std.specs.Prelude.{◌≡◌, ◌^◌, map, option_map, IfOk, IfSome, IfNone};
ghost use Rattle.clap.specs.Words.{first_of};
ghost use Rattle.command_lines.specs.Values.{HasNoNumber, HasNoOptionalNumber, IsChoiceOf, IsNumberOf};
ghost use Rattle.command_lines.specs.Values.{IsOptionalNumberOf, rows_in, words_in};
ghost use Rattle.command_lines.specs.Patterns.{IsKindOf};

use clap::ArgMatches;
use shape_core::Kind;
use std::alloc::{AllocError, Global};

/// Returns the first value of the option or word of this name, or None if it has none. It takes no
/// memory.
pub fn word_of<'a>(matches: &ArgMatches<'a>, name: &str) -> Option<&'a str>
    ensures { option_map (λ word. word.now) result ≡ first_of name.now (rows_in matches.now) }
{
    matches.get_str(name)
}

/// Returns the values of the option or words of this name, in their order: none if it is not given.
/// It takes memory.
///
/// # Errors
///
/// `AllocError` if memory was refused.
pub fn words_of<'a>(
    alloc: Global,
    matches: &ArgMatches<'a>,
    name: &str,
) -> Result<Vec<&'a str>, AllocError>
    ensures { IfOk result (λ found. map (λ word. word.now) found.items
        ≡ words_in name.now (rows_in matches.now)) }
{
    let Some(found) = matches.get_strs(name) else {
        return Ok(Vec::new(alloc));
    };
    let words = found.to_vec(alloc)?;
    Ok(words)
}

/// Returns the number that the option of this name has, or None if it has none. It takes no memory.
pub fn number(matches: &ArgMatches<'_>, name: &str) -> Option<u64>
    ensures number { IfSome result (IsNumberOf name.now (rows_in matches.now)) }
    ensures none { IfNone result (HasNoNumber (2 ^ 64) name.now (rows_in matches.now)) }
{
    matches.get_one::<u64>(name)
}

/// Returns the number of the option of this name: `Some(None)` if the option isn't given, and None
/// if it is given and its value is no number. It takes no memory.
pub fn optional_number(matches: &ArgMatches<'_>, name: &str) -> Option<Option<u64>>
    ensures number { IfSome result (IsOptionalNumberOf name.now (rows_in matches.now)) }
    ensures none { IfNone result (HasNoOptionalNumber name.now (rows_in matches.now)) }
{
    match word_of(matches, name) {
        Some(_) => match number(matches, name) {
            Some(number) => Some(Some(number)),
            None => None,
        },
        None => Some(None),
    }
}

/// Returns the number below 256 that the option of this name has, or None if it has none. It takes
/// no memory.
pub fn small_number(matches: &ArgMatches<'_>, name: &str) -> Option<u8>
    ensures number { IfSome result (IsNumberOf name.now (rows_in matches.now)) }
    ensures none { IfNone result (HasNoNumber (2 ^ 8) name.now (rows_in matches.now)) }
{
    matches.get_one::<u8>(name)
}

/// Returns `given` if the flag of this name is given, else `other`. It takes no memory.
pub fn choice<T: Copy>(matches: &ArgMatches<'_>, flag: &str, given: T, other: T) -> T
    ensures { IsChoiceOf flag.now given other (rows_in matches.now) result }
{
    if matches.get_flag(flag) { given } else { other }
}

/// Returns the kind of pattern that GLYPHS spell: diamonds if `--diamond` is given, else squares.
/// It takes no memory.
pub fn kind_of(matches: &ArgMatches<'_>) -> Kind
    ensures { IsKindOf (rows_in matches.now) result }
{
    choice(matches, "diamond", Kind::Diamond, Kind::Square)
}
