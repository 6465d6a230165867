//! The pattern that GLYPHS, COLOUR and `--diamond` spell.
ghost use Rattle.std.specs.Prelude.{IfOk, IfErr};
ghost use Rattle.command_lines.specs.Patterns.{IsSpelled, IsSpellingFault};
ghost use Rattle.command_lines.specs.Values.{rows_in};

use crate::values::{kind_of, word_of};
use clap::ArgMatches;
use engine_core::{RunFault, pattern_of};
use shape_core::Shape;

/// Returns the pattern that GLYPHS, COLOUR and `--diamond` spell. It takes no memory.
///
/// # Errors
///
/// `Usage` if the glyphs or the colour are missing, or if the colour is neither black nor white;
/// else `Glyph` if the glyphs are not those of a pattern.
pub fn spelled_pattern(matches: &ArgMatches<'_>) -> Result<Shape, RunFault>
    ensures shape { IfOk result (IsSpelled (rows_in matches.now)) }
    ensures fault { IfErr result (IsSpellingFault (rows_in matches.now)) }
{
    let Some(glyphs) = word_of(matches, "glyphs") else {
        return Err(RunFault::Usage);
    };
    let Some(mover) = word_of(matches, "colour") else {
        return Err(RunFault::Usage);
    };
    pattern_of(kind_of(matches), glyphs, mover)
}
