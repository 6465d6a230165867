//! The pattern that `find` is asked for: 25 glyphs and the colour to move.
ghost use Rattle.std.specs.Prelude.{◌≡◌, ◌≢◌, ◌<◌, ◌^◌, IfOk, IfErr, IfSome, IfNone};
ghost use Rattle.go_board.specs.declared.points.Colour.{Colour as Mover};
ghost use Rattle.shape_core.specs.Glyph.{glyphs_of};
ghost use Rattle.shape_core.specs.Word.{kind_of};
ghost use Rattle.engine_core.specs.Patterns.{colour_text, IsPatternOf, IsGlyphFault};
ghost use Rattle.engine_core.specs.Patterns.{IsPatternFault};

use crate::faults::RunFault;
use go_board::Colour;
use shape_core::{GlyphFault, Kind, Shape, Word, canonical, from_diamond_glyphs, from_glyphs};

/// Returns the colour that a word names, `black` or `white`, or None if it names neither.
fn colour_of(text: &str) -> Option<Colour>
    ensures some { IfSome result (λ colour. text.now ≡ colour_text colour) }
    ensures none { IfNone result ((colour : Mover) → text.now ≢ colour_text colour) }
{
    if text == "black" {
        return Some(Colour::Black);
    }
    if text == "white" {
        return Some(Colour::White);
    }
    None
}

/// Reads `glyphs` as the 25 glyphs of a pattern of `kind`, and returns the word that they spell.
/// The error says whether they are not 25, or which is no glyph.
fn word_of(kind: Kind, glyphs: &str) -> Result<Word, GlyphFault>
    ensures spelled { IfOk result (λ word. glyphs_of word ≡ glyphs.now) }
    ensures small { IfOk result (λ word. word < 2 ^ 51) }
    ensures kind { IfOk result (λ word. kind_of word ≡ kind) }
    ensures fault { IfErr result (IsGlyphFault glyphs.now) }
{
    match kind {
        Kind::Square => from_glyphs(glyphs.as_bytes()),
        Kind::Diamond => from_diamond_glyphs(glyphs.as_bytes()),
    }
}

/// Returns the canonical form of the pattern with these glyphs, a square or a diamond as `kind`
/// says, when `mover`, `black` or `white`, is to move. It is the same however the pattern is turned
/// or mirrored, and with the colours exchanged.
///
/// # Errors
///
/// `Usage` exactly if `mover` is neither `black` nor `white`, and else `Glyph` if the glyphs are
/// not 25 (H2) or one of them is no glyph (H1).
pub fn pattern_of(kind: Kind, glyphs: &str, mover: &str) -> Result<Shape, RunFault>
    ensures shape { IfOk result (IsPatternOf kind glyphs.now mover.now) }
    ensures fault { IfErr result (IsPatternFault glyphs.now mover.now) }
{
    let Some(colour) = colour_of(mover) else {
        return Err(RunFault::Usage);
    };
    match word_of(kind, glyphs) {
        Ok(word) => Ok(canonical(word, colour)),
        Err(fault) => Err(RunFault::Glyph(fault)),
    }
}
