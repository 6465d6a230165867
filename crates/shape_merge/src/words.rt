//! The words of the command line of `shape_merge`, and the join that they ask for.
ghost use Rattle.std.specs.Prelude.{◌≡◌, refl};
ghost use Rattle.engine_core.specs.declared.faults.RunFault.TheVariants as fault;
ghost use Rattle.shape_merge.specs.Commands.{program_app};
ghost use Rattle.shape_merge.specs.Words.{HasNoJoin, IsAsked};

use crate::commands::program;
use clap::{ArgMatches, Command};
use command_lines::{FromArguments, optional_number, text_of, word_of};
use engine_core::RunFault;
use merge_core::Form;
use std::alloc::{AllocError, Global};

/// The join that is asked for.
#[derive(Debug, Drop)]
pub struct Asked<'a> {
    /// Which text of the join is written, and which of its patterns.
    pub form: Form,
    /// The name of the file that is written, if it isn't standard output.
    pub out: Option<&'a str>,
    /// The names of the dictionaries' files.
    pub names: Vec<&'a str>,
}

impl<'a> FromArguments<'a> for Asked<'a> {
    ghost app = { program_app };

    ghost IsAsked = { IsAsked };

    ghost IsWrong = { λ rows found. (found ≡ fault.Usage) × HasNoJoin rows };

    ghost simple = { refl };

    fn program(alloc: Global) -> Result<Command<'a>, AllocError> {
        program(alloc)
    }

    /// Returns the join that the values ask for. `Usage` if they name no dictionary, or a number is
    /// missing or too large; `Memory` if memory was refused.
    fn from_values(alloc: Global, matches: &ArgMatches<'a>) -> Result<Asked<'a>, RunFault> {
        let Some(text) = text_of(matches) else {
            return Err(RunFault::Usage);
        };
        let Some(least) = optional_number(matches, "least") else {
            return Err(RunFault::Usage);
        };
        let Some(names) = matches.get_strs("dictionaries") else {
            return Err(RunFault::Usage);
        };
        let names = names.to_vec(alloc)?;
        Ok(Asked {
            form: Form { text, least },
            out: word_of(matches, "out"),
            names,
        })
    }
}
