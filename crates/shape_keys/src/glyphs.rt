//! Words and their glyphs: `.` empty, `X` black, `O` white, `#` off the board.
ghost use Rattle.std.specs.Prelude.{◌≡◌, ◌≢◌, ◌<◌, ◌≤◌, ◌^◌, ℕ};
ghost use Rattle.shape_core.specs.Glyph.{glyphs_of};
ghost use Rattle.shape_core.specs.declared.spelling.GlyphFault.TheVariants as fault;
ghost use Rattle.shape_keys.specs.Glyphs.{IsGlyphFault};
ghost use Rattle.shape_keys.specs.Status.{number_of};
ghost use Rattle.shape_keys.specs.declared.statuses.Status.TheVariants as status;

use crate::statuses::Status;
use shape_core::{GlyphFault, Word, from_diamond_glyphs, from_glyphs, glyphs};

/// Returns the status for a fault of glyphs: their number is wrong, or a byte is no glyph.
fn status_of(found: GlyphFault) -> Status
    ensures length { found ≡ fault.BadLength → result ≡ status.BadLength }
    ensures glyph { (at : ℕ) → found ≡ fault.BadGlyph at → result ≡ status.BadGlyph }
{
    match found {
        GlyphFault::BadLength => Status::BadLength,
        GlyphFault::BadGlyph(_) => Status::BadGlyph,
    }
}

/// Writes to `word` the word of the square with these 25 glyphs, row by row from the top. Takes no
/// memory.
///
/// Returns `Done` and writes the word. Returns `BadLength` exactly if there are not 25 bytes, and
/// else `BadGlyph` exactly if one is no glyph; `word` stays as it was then.
#[unsafe(no_mangle)]
pub extern "C" fn shapes_square_of_glyphs(glyphs: &[u8], word: &mut u64) -> u32
    ensures done { result ≡ number_of status.Done → (word.new < 2 ^ 50)
        × (glyphs_of word.new ≡ glyphs.now) }
    ensures found { (square : ℕ) → square < 2 ^ 50 → glyphs_of square ≡ glyphs.now
        → (result ≡ number_of status.Done) × (word.new ≡ square) }
    ensures fault { result ≢ number_of status.Done → IsGlyphFault glyphs.now result
        × (word.new ≡ word.old) }
{
    match from_glyphs(glyphs) {
        Ok(square) => {
            *word = square.bits();
            Status::Done.number()
        }
        Err(fault) => status_of(fault).number(),
    }
}

/// Writes to `word` the word of the diamond with these 25 glyphs, row by row from the top. Takes no
/// memory.
///
/// Returns `Done` and writes the word. Returns `BadLength` exactly if there are not 25 bytes, and
/// else `BadGlyph` exactly if one is no glyph; `word` stays as it was then.
#[unsafe(no_mangle)]
pub extern "C" fn shapes_diamond_of_glyphs(glyphs: &[u8], word: &mut u64) -> u32
    ensures done { result ≡ number_of status.Done → (2 ^ 50 ≤ word.new) × (word.new < 2 ^ 51)
        × (glyphs_of word.new ≡ glyphs.now) }
    ensures found { (diamond : ℕ) → 2 ^ 50 ≤ diamond → diamond < 2 ^ 51
        → glyphs_of diamond ≡ glyphs.now
        → (result ≡ number_of status.Done) × (word.new ≡ diamond) }
    ensures fault { result ≢ number_of status.Done → IsGlyphFault glyphs.now result
        × (word.new ≡ word.old) }
{
    match from_diamond_glyphs(glyphs) {
        Ok(diamond) => {
            *word = diamond.bits();
            Status::Done.number()
        }
        Err(fault) => status_of(fault).number(),
    }
}

/// Writes to `text` the 25 glyphs of `word`, row by row from the top, with no byte after them.
/// Takes no memory.
///
/// Returns `Done` and writes the glyphs. Returns `BadWord` exactly if `word` is 2^51 or more;
/// `text` stays as it was then.
#[unsafe(no_mangle)]
pub extern "C" fn shapes_glyphs(word: u64, text: &mut [u8; 25]) -> u32
    ensures done { word < 2 ^ 51 → (result ≡ number_of status.Done)
        × (text.new ≡ glyphs_of word) }
    ensures word { 2 ^ 51 ≤ word → (result ≡ number_of status.BadWord) × (text.new ≡ text.old) }
{
    match Word::new(word) {
        Some(known) => {
            *text = glyphs(known);
            Status::Done.number()
        }
        None => Status::BadWord.number(),
    }
}
