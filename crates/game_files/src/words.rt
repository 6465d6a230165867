//! What the words of a command line mean: files, and what is wrong with names.
ghost use Rattle.std.specs.Prelude.{◌≡◌, ◌≢◌, [], ◌∷◌, ◌++◌, map, IfOk, OnOk};
ghost use Rattle.game_files.specs.Sources.{AreGameFiles, AreMeant, IsBelow, IsFlawOf, IsMeant};
ghost use Rattle.game_files.specs.Inner.Grown.{AreFlaws, Grew};
ghost use Rattle.game_files.specs.declared.words.Source.TheVariants as source;

use crate::flaws::{Flaw, Why};
use crate::looks::{Seen, look};
use crate::walks::{Below, walk_below};
use std::alloc::AllocError;

/// One of the inputs that words mean, or what is wrong with a name.
#[derive(Debug, Drop)]
pub enum Source {
    /// Standard input.
    Input,
    /// The file of this name.
    File(String),
    /// No input: this is wrong with a name.
    Flaw(Flaw),
}

/// Appends to `all` that `name` has the flaw `why`.
fn push_flaw(
    rt: &HostRuntime,
    name: &str,
    why: Why,
    all: &mut Vec<Source>,
) -> Result<(), AllocError>
    ensures { OnOk result (Grew (IsFlawOf name.now why) all.old.items all.new.items) }
{
    let name = String::from_str(rt.alloc(), name)?;
    all.push(Source::Flaw(Flaw { name, why }))?;
    Ok(())
}

/// Appends to `all` that `names` names below a folder were passed over, unless they are 0.
fn push_passed_over(
    rt: &HostRuntime,
    folder: &str,
    names: u64,
    all: &mut Vec<Source>,
) -> Result<(), AllocError>
    ensures { OnOk result (Grew AreFlaws all.old.items all.new.items) }
{
    if names > 0 {
        push_flaw(rt, folder, Why::PassedOver(names), all)?;
    }
    Ok(())
}

/// Appends `flaws`, each what is wrong with a name, to `all`.
fn push_flaws(flaws: Vec<Flaw>, all: &mut Vec<Source>) -> Result<(), AllocError>
    ensures { OnOk result (all.new.items ≡ all.old.items ++ map source.Flaw flaws.items) }
{
    for flaw in flaws {
        all.push(Source::Flaw(flaw))?;
    }
    Ok(())
}

/// Appends `files` as inputs to `all`.
fn push_files(files: Vec<String>, all: &mut Vec<Source>) -> Result<(), AllocError>
    ensures { OnOk result (all.new.items ≡ all.old.items ++ map source.File files.items) }
{
    for file in files {
        all.push(Source::File(file))?;
    }
    Ok(())
}

/// Appends what was found below `folder`: first what is wrong, then the files. If there is neither,
/// appends the flaw that the folder has no games.
fn push_below(
    rt: &HostRuntime,
    folder: &str,
    below: Below,
    all: &mut Vec<Source>,
) -> Result<(), AllocError>
    requires { AreGameFiles below.files.items }
    ensures { OnOk result (Grew IsBelow all.old.items all.new.items) }
{
    if below.files.is_empty() && below.flaws.is_empty() {
        return push_flaw(rt, folder, Why::NoGames, all);
    }
    push_flaws(below.flaws, all)?;
    push_files(below.files, all)
}

/// Appends to `all` what a folder stands for: first what is wrong with names below it, then its
/// files of games. If it has no such file, and every name could be looked at, the folder is a flaw.
fn push_folder(rt: &HostRuntime, folder: &str, all: &mut Vec<Source>) -> Result<(), AllocError>
    ensures { OnOk result (Grew IsBelow all.old.items all.new.items) }
{
    let below = walk_below(rt, folder)?;
    push_passed_over(rt, folder, below.passed_over, all)?;
    push_below(rt, folder, below, all)
}

/// Appends to `all` the inputs that `word` stands for (standard input for `-`), or what is wrong
/// with it.
fn push_word(rt: &HostRuntime, word: &str, all: &mut Vec<Source>) -> Result<(), AllocError>
    ensures { OnOk result (Grew (IsMeant word.now) all.old.items all.new.items) }
{
    if word == "-" {
        all.push(Source::Input)?;
        return Ok(());
    }
    match look(rt, word)? {
        Seen::Folder(_) => push_folder(rt, word, all),
        Seen::File | Seen::Other => {
            all.push(Source::File(String::from_str(rt.alloc(), word)?))?;
            Ok(())
        }
        Seen::Unseen(why) => push_flaw(rt, word, why, all),
    }
}

/// Returns the inputs that these words stand for, in the order of the words. `-` is standard input,
/// and so is a line without words. A word that is a file is that file, whatever its name is. A
/// folder stands for all files below it whose names end in `.sgf` (`is_game_name`), links followed,
/// in the order of their whole names (`sort_names`). A link to a folder that the link stands in is
/// not followed. What is wrong with names of a folder comes before its files.
///
/// A name that can't be looked at is a `Flaw` in place of an input, except for one below a folder
/// that leads nowhere and does not end in `.sgf`. A folder without a file of games is a `Flaw`,
/// unless something of it could not be looked at. Names below a folder that are not UTF-8 are
/// passed over, and how many they are is one `Flaw` more. A file that two words stand for comes
/// twice. It takes memory for all names; no file is opened.
///
/// # Errors
///
/// `AllocError` if memory was refused.
pub fn sources(rt: &HostRuntime, words: &[&str]) -> Result<Vec<Source>, AllocError>
    ensures none { words.now ≡ [] → IfOk result (λ all. all.items ≡ source.Input ∷ []) }
    ensures some { words.now ≢ [] → IfOk result (λ all.
        AreMeant (map (λ w. w.now) words.now) all.items) }
{
    let mut all = Vec::new(rt.alloc());
    if words.is_empty() {
        all.push(Source::Input)?;
        return Ok(all);
    }
    for word in words {
        push_word(rt, *word, &mut all)?;
    }
    Ok(all)
}
