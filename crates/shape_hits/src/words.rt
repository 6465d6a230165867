//! The words of the command line of `shape_hits`, and the search that they ask for. A file of words
//! is something else: each of its lines begins with the canonical word (the number) of a pattern.
ghost use Rattle.std.specs.Prelude.{◌≡◌, ◌≢◌, ◌++◌, codes, map, IfOk, IfErr, None, MatchBool, OnOk};
ghost use Rattle.std.specs.Prelude.{option_to_list, refl};
ghost use Rattle.clap.specs.Words.{first_of};
ghost use Rattle.command_lines.specs.Values.{rows_in};
ghost use Rattle.shape_hits.specs.Commands.{program_app};
ghost use Rattle.shape_hits.specs.Words.{ArePatterns, IsAsked, IsPatternsFault, IsSearchFault, IsSoughtOf};
ghost use Rattle.shape_hits.specs.Words.{IsSpellingOf, first_names, names_of, shown_for};

use crate::commands::program;
use clap::{ArgMatches, Command};
use command_lines::{
    FromArguments, choice, kind_of, optional_number, small_number, spelled_pattern, word_of,
    words_of,
};
use engine_core::RunFault;
use hits_core::{Search, Shown, Sought, Spelling};
use shape_core::{Kind, Shape};
use std::alloc::{AllocError, Global};

/// The search that is asked for.
#[derive(Debug, Drop)]
pub struct Asked<'a> {
    /// The pattern that is looked for, if one is spelled.
    pub shape: Option<Shape>,
    /// The name of the file with the canonical words of the patterns that are looked for, if no
    /// pattern is spelled.
    pub words: Option<&'a str>,
    /// What is listed of the patterns, and how.
    pub search: Search<'static>,
    /// How many threads search.
    pub workers: u8,
    /// The folder in which a file for each hit is written, if one is named.
    pub folder: Option<&'a str>,
    /// The words of the command line that name collections and folders of collections.
    pub names: Vec<&'a str>,
}

/// Returns what the lines of hits show: if `shape` is None, also the pattern's word, since the
/// patterns of a file of words are looked for.
fn shown_for(shape: &Option<Shape>) -> Shown
    ensures { result ≡ shown_for shape.now }
{
    match shape {
        Some(_) => Shown::Places,
        None => Shown::WordsToo,
    }
}

/// Returns the pattern that the glyphs and the colour spell; an error if they spell none.
fn spelled(matches: &ArgMatches<'_>) -> Result<Option<Shape>, RunFault>
    requires { first_of (codes "words") (rows_in matches.now) ≡ None }
    ensures patterns { IfOk result (ArePatterns (rows_in matches.now)) }
    ensures fault { IfErr result (IsPatternsFault (rows_in matches.now)) }
{
    match spelled_pattern(matches) {
        Ok(shape) => Ok(Some(shape)),
        Err(fault) => Err(fault),
    }
}

/// Whether the argument `id` is given.
fn is_given(matches: &ArgMatches<'_>, id: &str) -> bool
    ensures { MatchBool result (first_of id.now (rows_in matches.now) ≢ None)
        (first_of id.now (rows_in matches.now) ≡ None) }
{
    match word_of(matches, id) {
        Some(_) => true,
        None => false,
    }
}

/// Returns `Ok(None)`, as there is a file of words in place of a spelled pattern; `Usage` if
/// `--diamond` is given as well.
fn listed(matches: &ArgMatches<'_>) -> Result<Option<Shape>, RunFault>
    requires { first_of (codes "words") (rows_in matches.now) ≢ None }
    ensures patterns { IfOk result (ArePatterns (rows_in matches.now)) }
    ensures fault { IfErr result (IsPatternsFault (rows_in matches.now)) }
{
    match kind_of(matches) {
        Kind::Square => Ok(None),
        Kind::Diamond => Err(RunFault::Usage),
    }
}

/// Returns the pattern that is looked for, or None if a file of words is named. `Usage` if that is
/// named with `--diamond`, if the glyphs or the colour are missing, or if the colour is neither
/// black nor white; `Glyph` if the glyphs are not those of a pattern.
fn shape_of(matches: &ArgMatches<'_>) -> Result<Option<Shape>, RunFault>
    ensures patterns { IfOk result (ArePatterns (rows_in matches.now)) }
    ensures fault { IfErr result (IsPatternsFault (rows_in matches.now)) }
{
    if is_given(matches, "words") {
        return listed(matches);
    }
    spelled(matches)
}

/// Appends the value of the argument `id` to `names`, if it is given.
fn push_word<'a>(
    names: &mut Vec<&'a str>,
    matches: &ArgMatches<'a>,
    id: &str,
) -> Result<(), AllocError>
    ensures { OnOk result (map (λ name. name.now) names.new.items
        ≡ map (λ name. name.now) names.old.items
        ++ option_to_list (first_of id.now (rows_in matches.now))) }
{
    if let Some(word) = word_of(matches, id) {
        names.push(word)?;
    }
    Ok(())
}

/// If a file of words is named, returns the first two names of collections, or as many as there
/// are: `clap` has them as the glyphs and the colour, but no pattern is spelled then. Else returns
/// no name.
fn first_names<'a>(alloc: Global, matches: &ArgMatches<'a>) -> Result<Vec<&'a str>, AllocError>
    ensures { IfOk result (λ names. map (λ name. name.now) names.items
        ≡ first_names (first_of (codes "words") (rows_in matches.now)) (rows_in matches.now)) }
{
    let mut names = Vec::new(alloc);
    if is_given(matches, "words") {
        push_word(&mut names, matches, "glyphs")?;
        push_word(&mut names, matches, "colour")?;
    }
    Ok(names)
}

/// Appends all of `others` to `names`.
fn push_all<'a>(names: &mut Vec<&'a str>, others: &[&'a str]) -> Result<(), AllocError>
    ensures { OnOk result (names.new.items ≡ names.old.items ++ others.now) }
{
    for other in others {
        names.push(*other)?;
    }
    Ok(())
}

/// Returns the words of the command line that name collections and folders of collections.
fn names_of<'a>(alloc: Global, matches: &ArgMatches<'a>) -> Result<Vec<&'a str>, AllocError>
    ensures { IfOk result (λ names. map (λ name. name.now) names.items
        ≡ names_of (rows_in matches.now)) }
{
    let mut names = first_names(alloc, matches)?;
    let others = words_of(alloc, matches, "files")?;
    push_all(&mut names, &others)?;
    Ok(names)
}

/// Returns what is listed of the patterns, and how: at most `most` hits (None for all), each with
/// its pattern's word if `shape` is None.
fn search_of(matches: &ArgMatches<'_>, most: Option<u64>, shape: &Option<Shape>) -> Search<'static>
    ensures sought { IsSoughtOf (rows_in matches.now) result.sought }
    ensures most { result.most ≡ most }
    ensures shown { result.shown ≡ shown_for shape.now }
    ensures spelling { IsSpellingOf (rows_in matches.now) result.spelling }
    ensures first { result.first ≡ 0 }
    ensures name { result.name ≡ None }
{
    Search {
        sought: choice(matches, "there", Sought::There, Sought::Played),
        most,
        shown: shown_for(shape),
        spelling: choice(
            matches,
            "coordinates",
            Spelling::Coordinates,
            Spelling::Letters,
        ),
        first: 0,
        name: None,
    }
}

impl<'a> FromArguments<'a> for Asked<'a> {
    ghost app = { program_app };

    ghost IsAsked = { IsAsked };

    ghost IsWrong = { IsSearchFault };

    ghost simple = { refl };

    fn program(alloc: Global) -> Result<Command<'a>, AllocError> {
        program(alloc)
    }

    /// Returns the search that the values ask for. `Usage` if they name no file of words and the
    /// colour or the glyphs are missing, or the colour is neither black nor white; if they name one
    /// with `--diamond`; and if a number is missing or too large. `Glyph` if the glyphs are not
    /// those of a pattern. `Memory` if memory was refused.
    fn from_values(alloc: Global, matches: &ArgMatches<'a>) -> Result<Asked<'a>, RunFault> {
        let shape = shape_of(matches)?;
        let Some(most) = optional_number(matches, "most") else {
            return Err(RunFault::Usage);
        };
        let Some(workers) = small_number(matches, "workers") else {
            return Err(RunFault::Usage);
        };
        let search = search_of(matches, most, &shape);
        let names = names_of(alloc, matches)?;
        Ok(Asked {
            shape,
            words: word_of(matches, "words"),
            search,
            workers,
            folder: word_of(matches, "sgf"),
            names,
        })
    }
}
