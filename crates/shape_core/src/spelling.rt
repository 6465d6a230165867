//! Words written as 25 glyphs: `.` empty, `X` black, `O` white, `#` off the board.
ghost use Rattle.std.specs.Prelude.{◌≡◌, ◌≢◌, ◌↔◌, ◌<◌, ◌≤◌, ◌^◌, ℕ, length, IsSome, IfSome, IfOk};
ghost use Rattle.std.specs.Prelude.{is_some};
ghost use Rattle.shape_core.specs.Glyph.{glyph_of, is_glyph, glyphs_of, IsFirstBad};

use crate::words::{DIAMOND, Word};
use thiserror::Error;

/// Why bytes are not the glyphs of a word.
#[derive(Clone, Copy, Debug, PartialEq, Eq, Error)]
pub enum GlyphFault {
    /// There are not 25 bytes.
    #[error("H2 bad length")]
    BadLength,
    /// The byte at this index, counted from 0, is no glyph; all bytes before it are glyphs.
    #[error("H1 bad glyph at {0}")]
    BadGlyph(usize),
}

/// Returns the glyphs of a word's cells, cell 0 first. Takes no memory.
pub fn glyphs(word: Word) -> [u8; 25]
    ensures { result ≡ glyphs_of word }
{
    let mut glyphs = [b'.'; 25];
    for cell in 0..25 {
        glyphs[cell] = glyph(word.code(cell));
    }
    glyphs
}

/// Returns the glyph of a cell's code: `.`, `X`, `O` and `#` for 0 to 3.
fn glyph(code: u8) -> u8
    ensures { result ≡ glyph_of code }
{
    match code {
        0 => b'.',
        1 => b'X',
        2 => b'O',
        _ => b'#',
    }
}

/// Returns the code of a glyph, from 0 to 3, or None if the byte is no glyph.
fn code(glyph: u8) -> Option<u8>
    ensures some { is_some result ≡ is_glyph glyph }
    ensures value { IfSome result (λ code. (code < 4) × (glyph_of code ≡ glyph)) }
{
    match glyph {
        b'.' => Some(0),
        b'X' => Some(1),
        b'O' => Some(2),
        b'#' => Some(3),
        _ => None,
    }
}

/// Returns the sum over 25 cells with these glyphs: each cell's code times 4 to the power of the
/// cell's number. `BadLength` if there are not 25 bytes, else `BadGlyph` at the first byte that is
/// no glyph.
fn sum_of_glyphs(bytes: &[u8]) -> Result<u64, GlyphFault>
    ensures ok { IfOk result (λ sum. (sum < 2 ^ 50) × (glyphs_of sum ≡ bytes.now)) }
    ensures found { (sum : ℕ) → sum < 2 ^ 50 → glyphs_of sum ≡ bytes.now → result ≡ Ok sum }
    ensures length { (result ≡ Err GlyphFault.BadLength) ↔ (length bytes.now ≢ 25) }
    ensures glyph { (at : ℕ) → (result ≡ Err (GlyphFault.BadGlyph at))
        ↔ ((length bytes.now ≡ 25) × IsFirstBad bytes.now at) }
{
    if bytes.len() != 25 {
        return Err(GlyphFault::BadLength);
    }
    let mut sum = 0;
    for (at, byte) in bytes.iter().enumerate() {
        let Some(code) = code(*byte) else {
            return Err(GlyphFault::BadGlyph(at));
        };
        sum += u64::from(code) << (2 * at);
    }
    Ok(sum)
}

/// Returns the square that 25 glyphs spell: `.` empty, `X` black, `O` white, `#` off the board. The
/// cells go row by row from the top, each row from the left. It takes no memory.
///
/// # Errors
///
/// `BadLength` exactly if there are not 25 bytes, and else `BadGlyph` at the first byte that is no
/// glyph.
pub fn from_glyphs(bytes: &[u8]) -> Result<Word, GlyphFault>
    ensures ok { IfOk result (λ word. (word < 2 ^ 50) × (glyphs_of word ≡ bytes.now)) }
    ensures found { (word : ℕ) → word < 2 ^ 50 → glyphs_of word ≡ bytes.now → result ≡ Ok word }
    ensures length { (result ≡ Err GlyphFault.BadLength) ↔ (length bytes.now ≢ 25) }
    ensures glyph { (at : ℕ) → (result ≡ Err (GlyphFault.BadGlyph at))
        ↔ ((length bytes.now ≡ 25) × IsFirstBad bytes.now at) }
{
    let sum = sum_of_glyphs(bytes)?;
    Ok(Word::of_bits(sum))
}

/// Returns the diamond that 25 glyphs spell: `.` empty, `X` black, `O` white, `#` off the board.
/// The cells go row by row from the top (1, 3, 5, 7, 5, 3 and 1 cells), each row from the left. It
/// takes no memory.
///
/// # Errors
///
/// `BadLength` exactly if there are not 25 bytes, and else `BadGlyph` at the first byte that is no
/// glyph.
pub fn from_diamond_glyphs(bytes: &[u8]) -> Result<Word, GlyphFault>
    ensures ok { IfOk result (λ word. (2 ^ 50 ≤ word) × (word < 2 ^ 51)
        × (glyphs_of word ≡ bytes.now)) }
    ensures found { (word : ℕ) →
        2 ^ 50 ≤ word →
        word < 2 ^ 51 →
        glyphs_of word ≡ bytes.now →
        result ≡ Ok word }
    ensures length { (result ≡ Err GlyphFault.BadLength) ↔ (length bytes.now ≢ 25) }
    ensures glyph { (at : ℕ) → (result ≡ Err (GlyphFault.BadGlyph at))
        ↔ ((length bytes.now ≡ 25) × IsFirstBad bytes.now at) }
{
    let sum = sum_of_glyphs(bytes)?;
    Ok(Word::of_bits(DIAMOND + sum))
}
