//! Reads a command line with `clap`: its values, or the text of help or version.
ghost use Rattle.std.specs.Prelude.{◌≡◌, ◌⊎◌, true, map, string_bytes, IfOk, IfErr};
ghost use Rattle.clap.specs.Values.{kind_of};
ghost use Rattle.clap.specs.Words.{app_of, is_simple_and_free};
ghost use Rattle.command_lines.specs.Inner.Kinds.{IsHelpKind};
ghost use Rattle.command_lines.specs.Lines.{AreValues, IsLineOf, IsLineFault, IsRefusal};
ghost use Rattle.engine_core.specs.declared.faults.RunFault.TheVariants as fault;

use clap::error::ErrorKind;
use clap::{ArgMatches, Command, Error};
use engine_core::RunFault;
use std::alloc::Global;

/// What a command line asks for.
#[derive(Debug, Drop)]
pub enum Line<T> {
    /// What the words ask for; `clap` takes them.
    Asked(T),
    /// The text of help or version, which the words ask for.
    Told(String),
}

/// Returns the text of help or version if `error`, the answer of `clap`, is one. Else the error is
/// `Memory` if memory was refused, and `Usage` if `clap` refuses the words.
fn told(alloc: Global, error: &Error) -> Result<String, RunFault>
    ensures help { IfOk result (λ _. IsHelpKind (kind_of error.now)) }
    ensures fault { IfErr result (λ found. (found ≡ fault.Memory)
        ⊎ ((found ≡ fault.Usage) × IsRefusal (kind_of error.now))) }
{
    match error.kind() {
        ErrorKind::DisplayHelp | ErrorKind::DisplayVersion => Ok(error.to_string(alloc)?),
        ErrorKind::OutOfMemory => Err(RunFault::Memory),
        _ => Err(RunFault::Usage),
    }
}

/// Returns the values that `clap` finds in `words`, those after the program's name, or the text of
/// help or version if they ask for one. `program` must say that no name comes first (clap's
/// `no_binary_name`), and have no groups, no global arguments, and no argument with a rule on
/// another. It takes memory.
///
/// # Errors
///
/// `Usage` if `clap` refuses the words; `Memory` if memory was refused.
pub fn read_line<'a>(
    alloc: Global,
    program: Command<'a>,
    words: &'a [String],
) -> Result<Line<ArgMatches<'a>>, RunFault>
    requires { is_simple_and_free (app_of program) ≡ true }
    ensures line { IfOk result (IsLineOf (app_of program.entry) (map string_bytes words.now)
        (AreValues (app_of program.entry) (map string_bytes words.now))) }
    ensures fault { IfErr result (IsLineFault (app_of program.entry) (map string_bytes words.now)) }
{
    match program.try_get_matches_from(words) {
        Ok(matches) => Ok(Line::Asked(matches)),
        Err(error) => Ok(Line::Told(told(alloc, &error)?)),
    }
}
