//! What the words of a command line ask for, by a program's definition for `clap` and the values
//! that `clap` finds in the words.
ghost use Rattle.std.specs.Prelude.{◌≡◌, ◌⊎◌, List, true, map, string_bytes, IfOk, IfErr};
ghost use Rattle.clap.specs.Words.{App, Row, app_of, is_simple_and_free, matches_of};
ghost use Rattle.command_lines.specs.Lines.{IsAskingFault, IsLineOf};
ghost use Rattle.command_lines.specs.Values.{rows_in};
ghost use Rattle.engine_core.specs.declared.faults.RunFault.{RunFault};
ghost use Rattle.engine_core.specs.declared.faults.RunFault.TheVariants as fault;

use crate::lines::{Line, read_line};
use clap::{ArgMatches, Command};
use engine_core::RunFault;
use std::alloc::{AllocError, Global};

/// A type whose values are what the words of a program without subcommands may ask for, with how to
/// read it from the words.
pub trait FromArguments<'a>: Sized + Drop {
    /// The program, as it is defined for `clap`. Used in contracts only.
    ghost app: { App };

    /// Whether the values ask for this. Used in contracts only.
    ghost IsAsked: { List Row → Self → Type 0 };

    /// Whether the values ask for nothing, for this reason. Used in contracts only.
    ghost IsWrong: { List Row → RunFault → Type 0 };

    /// Defines the program for `clap`. It takes memory.
    ///
    /// # Errors
    ///
    /// `AllocError` if memory was refused.
    fn program(alloc: Global) -> Result<Command<'a>, AllocError>
        ensures { IfOk result (λ command. app_of command ≡ app) };

    /// Returns what the values that `clap` found ask for. It may take memory.
    ///
    /// # Errors
    ///
    /// If the values ask for nothing, the fault that says why, such as `Usage`; `Memory` if memory
    /// was refused.
    fn from_values(alloc: Global, matches: &ArgMatches<'a>) -> Result<Self, RunFault>
        ensures asked { IfOk result (IsAsked (rows_in matches.now)) }
        ensures fault { IfErr result (λ found. (found ≡ fault.Memory)
            ⊎ IsWrong (rows_in matches.now) found) };

    /// The program has neither groups nor global arguments, and no argument has a rule on another.
    ghost simple: { is_simple_and_free app ≡ true };
}

/// Returns what the words after a program's name ask for: a value of `T`, or the text of help or
/// version. It takes memory.
///
/// # Errors
///
/// `Usage` if `clap` refuses the words. The error of `T::from_values` if `clap` takes them, but
/// they ask for nothing. `Memory` if memory was refused.
pub fn read_arguments<'a, T: FromArguments<'a>>(
    alloc: Global,
    words: &'a [String],
) -> Result<Line<T>, RunFault>
    ensures line { IfOk result (IsLineOf T.app (map string_bytes words.now)
        (T.IsAsked (matches_of T.app (map string_bytes words.now)))) }
    ensures fault { IfErr result (IsAskingFault T.app (map string_bytes words.now)
        (T.IsWrong (matches_of T.app (map string_bytes words.now)))) }
{
    match read_line(alloc, T::program(alloc)?, words)? {
        Line::Asked(matches) => Ok(Line::Asked(T::from_values(alloc, &matches)?)),
        Line::Told(text) => Ok(Line::Told(text)),
    }
}
