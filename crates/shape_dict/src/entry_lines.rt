//! Reads the next entry of a text, and checks it by how many entries and which shape came before
//! it.
ghost use Rattle.std.specs.Prelude.{◌≡◌, ◌++◌, ◌<◌, ◌^◌, IfOk, IfErr, MatchBool};
ghost use Rattle.shape_core.specs.Symmetry.{least_image};
ghost use Rattle.shape_dict.specs.Text.{line_text};
ghost use Rattle.shape_dict.specs.Reading.{IsLine, IsAbove, IsLineFault};

use crate::entries::Entry;
use crate::faults::DictFault;
use crate::first_games::FirstGame;
use crate::headers::Header;
use crate::lines::read_line;
use crate::quick::quick_entry;
use shape_core::{Shape, Word};

/// Whether `word` is above the word of `last`, or there is no last shape.
fn is_above(last: Option<Shape>, word: Word) -> bool
    ensures { MatchBool result (IsAbove last word) (IsAbove last word → ⊥) }
{
    match last {
        None => true,
        Some(shape) => shape.word().bits() < word.bits(),
    }
}

/// Reads the line at the front of the bytes, whose numbers may also have more than 18 digits.
/// Returns its entry and the bytes after it, or what is wrong with it. `place` is how many entries
/// came before it, and `last` the shape of the last of them.
#[inline(never)]
fn slow_entry<'a>(
    header: &Header,
    place: u64,
    last: &Option<Shape>,
    bytes: &'a [u8],
) -> Result<(Entry, &'a [u8]), DictFault>
    requires { place < 2 ^ 63 }
    ensures line { IfOk result (λ p. IsLine header.now place p.0) }
    ensures shape { IfOk result (λ p. IsAbove last.now p.0.shape
        × (least_image p.0.shape ≡ p.0.shape)) }
    ensures same { IfOk result (λ p. bytes.now ≡ line_text header.now.text p.0 ++ p.1.now) }
    ensures fault { IfErr result (IsLineFault header.now place last.now bytes.now) }
{
    let Some((line, rest)) = read_line(header, place, bytes) else {
        return Err(DictFault::BadLine(place + 2));
    };
    if !is_above(*last, line.word) {
        return Err(DictFault::NotRising(place + 2));
    }
    let Some(shape) = Shape::of_word(line.word) else {
        return Err(DictFault::NotCanonical(place + 2));
    };
    let entry = Entry {
        shape,
        there: line.there,
        played: line.played,
        first: FirstGame::new(line.first),
    };
    Ok((entry, rest))
}

/// Reads the line at the front of the bytes, and returns its entry and the bytes after it. `place`
/// is how many entries came before it, and `last` the shape of the last of them. It takes no
/// memory.
///
/// # Errors
///
/// `BadLine` if the bytes don't begin with a well-formed line, or if its kind, counts or first game
/// can't come after `place` entries in a dictionary with this header; else `NotRising` if its word
/// is not above that of `last`; else `NotCanonical` if its word is not the least of its images
/// under symmetries and exchange of colours.
#[inline(always)]
pub fn read_entry<'a>(
    header: &Header,
    place: u64,
    last: Option<Shape>,
    bytes: &'a [u8],
) -> Result<(Entry, &'a [u8]), DictFault>
    requires { place < 2 ^ 63 }
    ensures line { IfOk result (λ p. IsLine header.now place p.0) }
    ensures shape { IfOk result (λ p. IsAbove last p.0.shape
        × (least_image p.0.shape ≡ p.0.shape)) }
    ensures same { IfOk result (λ p. bytes.now ≡ line_text header.now.text p.0 ++ p.1.now) }
    ensures fault { IfErr result (IsLineFault header.now place last bytes.now) }
{
    if let Some((entry, rest)) = quick_entry(header, place, last, bytes) {
        return Ok((entry, rest));
    }
    // The kit's borrow checker does not follow a struct that is passed by value twice.
    slow_entry(header, place, &last, bytes)
}
