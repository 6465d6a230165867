//! The words of the command line of `shape_games`, and the listing that they ask for.
ghost use Rattle.std.specs.Prelude.{◌≡◌, ◌⊎◌, refl, true, false, map, IfOk, IfErr};
ghost use Rattle.command_lines.specs.Values.{IsChoiceOf, rows_in};
ghost use Rattle.engine_core.specs.declared.faults.RunFault.TheVariants as fault;
ghost use Rattle.shape_games.specs.Commands.{program_app};
ghost use Rattle.shape_games.specs.Words.{AreConditions, HasBadCondition, IsAsked, IsUsage};
ghost use Rattle.shape_games.specs.Words.{is_some_text, work_of};

use crate::commands::program;
use clap::{ArgMatches, Command};
use command_lines::{FromArguments, choice, words_of};
use engine_core::RunFault;
use listing_core::{Condition, Form, condition_of};
use std::alloc::{AllocError, Global};

/// What is done with the collections.
#[derive(Clone, Copy, Debug, PartialEq, Eq)]
pub enum Work {
    /// Each tree that is chosen is written in this form: a line, columns, or the tree itself.
    List(Form),
    /// A line is written for each game whose board, setup and moves an earlier game has.
    Twins,
}

/// What the words ask for.
#[derive(Debug, Drop)]
pub struct Asked<'a> {
    /// What is done with the collections.
    pub work: Work,
    /// The conditions that a game has to meet to be chosen.
    pub conditions: Vec<Condition<'a>>,
    /// The words that name collections and folders.
    pub files: Vec<&'a str>,
}

/// Returns the conditions that these texts spell; `Usage` if one of them spells none.
fn conditions_of<'a>(alloc: Global, texts: &[&'a str]) -> Result<Vec<Condition<'a>>, RunFault>
    ensures conditions { IfOk result (λ found.
        AreConditions (map (λ text. text.now) texts.now) found.items) }
    ensures fault { IfErr result (λ found. (found ≡ fault.Memory) ⊎ ((found ≡ fault.Usage)
        × HasBadCondition (map (λ text. text.now) texts.now))) }
{
    let mut conditions = Vec::new(alloc);
    for text in texts {
        let Some(condition) = condition_of(*text) else {
            return Err(RunFault::Usage);
        };
        conditions.push(condition)?;
    }
    Ok(conditions)
}

/// Returns what is done, by the flags of these names and whether there is a condition. None if two
/// of the flags are set, or `twice` and a condition, which exclude one another.
fn work_for(info: bool, cut: bool, twice: bool, has_condition: bool) -> Option<Work>
    ensures { result ≡ work_of info cut twice has_condition }
{
    match (info, cut, twice) {
        (false, false, false) => Some(Work::List(Form::Lines)),
        (true, false, false) => Some(Work::List(Form::Columns)),
        (false, true, false) => Some(Work::List(Form::Trees)),
        (false, false, true) => {
            if has_condition {
                None
            } else {
                Some(Work::Twins)
            }
        }
        _ => None,
    }
}

/// Whether `texts` has any text.
fn is_some_text(texts: &[&str]) -> bool
    ensures { result ≡ is_some_text (map (λ text. text.now) texts.now) }
{
    match texts {
        [] => false,
        _ => true,
    }
}

/// Whether the flag `flag` is given.
fn has_flag(matches: &ArgMatches<'_>, flag: &str) -> bool
    ensures { IsChoiceOf flag.now true false (rows_in matches.now) result }
{
    choice(matches, flag, true, false)
}

impl<'a> FromArguments<'a> for Asked<'a> {
    ghost app = { program_app };

    ghost IsAsked = { IsAsked };

    ghost IsWrong = { λ rows found. (found ≡ fault.Usage) × IsUsage rows };

    ghost simple = { refl };

    fn program(alloc: Global) -> Result<Command<'a>, AllocError> {
        program(alloc)
    }

    /// Returns what the values ask for; no values at all ask for the lines of standard input.
    /// `Usage` if a text spells no condition, or if what is asked for does not go together: two of
    /// `--info`, `--cut` and `--twice`, or `--twice` and a condition. `Memory` if memory was
    /// refused.
    fn from_values(alloc: Global, matches: &ArgMatches<'a>) -> Result<Asked<'a>, RunFault> {
        let files = words_of(alloc, matches, "files")?;
        let texts = words_of(alloc, matches, "where")?;
        let conditions = conditions_of(alloc, &texts)?;
        let info = has_flag(matches, "info");
        let cut = has_flag(matches, "cut");
        let twice = has_flag(matches, "twice");
        let Some(work) = work_for(info, cut, twice, is_some_text(&texts)) else {
            return Err(RunFault::Usage);
        };
        Ok(Asked {
            work,
            conditions,
            files,
        })
    }
}
