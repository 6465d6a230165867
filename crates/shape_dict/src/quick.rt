//! Reads the next line's entry with few branches, if its numbers are of the common lengths.
ghost use Rattle.std.specs.Prelude.{◌+◌, ◌≡◌, ◌++◌, ◌∷◌, ◌<◌, ◌≤◌, ◌^◌, length, take, true, codes};
ghost use Rattle.std.specs.Prelude.{IfSome};
ghost use Rattle.std.specs.Fmt.{decimal};
ghost use Rattle.shape_core.specs.Symmetry.{least_image};
ghost use Rattle.shape_dict.specs.Text.{first_text, line_text, line_feed};
ghost use Rattle.shape_dict.specs.Text.{optional_number};
ghost use Rattle.shape_dict.specs.Inner.Parsing.{AreDigits, read_on};
ghost use Rattle.shape_dict.specs.Reading.{IsLine, IsAbove, IsFirst, kind_at};
ghost use Rattle.shape_core.specs.Word.{kind_of};

use crate::entries::{Entry, Text};
use crate::first_games::FirstGame;
use crate::headers::Header;
use crate::hexadecimals::word_bits;
use shape_core::{Kind, Shape, Word};

/// The most digits of a number that are read here.
const DIGITS: usize = 18;

/// Returns the number that the decimal digits at the front spell, and how many digits these are: at
/// most `DIGITS` are read. Both are 0 if no digit comes first.
#[inline(always)]
fn quick_digits(bytes: &[u8]) -> (u64, usize)
    ensures fits { result.1 ≤ length bytes.now }
    ensures digits { AreDigits (take result.1 bytes.now) }
    ensures value { result.0 ≡ read_on 0 (take result.1 bytes.now) }
    ensures small { result.0 < 2 ^ 64 }
{
    let mut value: u64 = 0;
    let mut count = 0;
    while count < DIGITS && count < bytes.len() && bytes[count].is_ascii_digit() {
        value = 10 * value + u64::from(bytes[count] - b'0');
        count += 1;
    }
    (value, count)
}

/// Reads at most `DIGITS` digits of a decimal number, and returns what they spell with the bytes
/// after them. None if no digit comes first, or a leading zero does.
#[inline(always)]
fn quick_number(bytes: &[u8]) -> Option<(u64, &[u8])>
    ensures { IfSome result (λ p. (bytes.now ≡ decimal p.0 ++ p.1.now) × (p.0 < 2 ^ 64)) }
{
    let (value, count) = quick_digits(bytes);
    if count == 0 {
        return None;
    }
    if count > 1 && bytes[0] == b'0' {
        return None;
    }
    Some((value, &bytes[count..]))
}

/// Returns the bytes after `byte`, or None if they do not begin with it.
#[inline(always)]
fn after(bytes: &[u8], byte: u8) -> Option<&[u8]>
    ensures { IfSome result (λ rest. bytes.now ≡ byte ∷ rest.now) }
{
    if bytes.is_empty() || bytes[0] != byte {
        return None;
    }
    Some(&bytes[1..])
}

/// Reads how often a pattern was there and was played, and returns both with the bytes after them.
/// None if the bytes begin otherwise.
#[inline(always)]
fn quick_uses(bytes: &[u8]) -> Option<(u64, u64, &[u8])>
    ensures { IfSome result (λ p. (bytes.now
        ≡ codes " " ++ (decimal p.0 ++ (codes " " ++ (decimal p.1 ++ p.2.now)))) × (p.0 < 2 ^ 64)
        × (p.1 < 2 ^ 64)) }
{
    let rest = after(bytes, b' ')?;
    let (there, rest) = quick_number(rest)?;
    let rest = after(rest, b' ')?;
    let (played, rest) = quick_number(rest)?;
    Some((there, played, rest))
}

/// Reads a first game, or `-` for None, and returns it with the bytes after it. The result is None
/// if neither comes first.
#[inline(always)]
fn quick_game(bytes: &[u8]) -> Option<(Option<u64>, &[u8])>
    ensures { IfSome result (λ p. (bytes.now ≡ optional_number p.0 ++ p.1.now)
        × IfSome p.0 (λ game. game < 2 ^ 64)) }
{
    if let Some(rest) = after(bytes, b'-') {
        return Some((None, rest));
    }
    let (game, rest) = quick_number(bytes)?;
    Some((Some(game), rest))
}

/// Reads the end of a line: in text 3 the first game, or `-`, and a line feed, else the line feed
/// alone. Returns the game, or None if there is none, and the bytes after the line. The result is
/// None if the bytes begin otherwise, or the game is not below the header's number of games.
#[inline(always)]
fn quick_end<'a>(bytes: &'a [u8], header: &Header) -> Option<(Option<u64>, &'a [u8])>
    ensures { IfSome result (λ p. (bytes.now ≡ first_text header.now.text p.0 ++ (line_feed ++ p.1.now))
        × IsFirst header.now.text header.now.games p.0 × IfSome p.0 (λ game. game + 1 < 2 ^ 64)) }
{
    if header.text != Text::Three {
        let rest = after(bytes, b'\n')?;
        return Some((None, rest));
    }
    let rest = after(bytes, b' ')?;
    let (first, rest) = quick_game(rest)?;
    let rest = after(rest, b'\n')?;
    if first.unwrap_or(0) >= header.games && first.is_some() {
        return None;
    }
    Some((first, rest))
}

/// Whether `word` may come after `place` lines, the last of which has the shape `last`: it is a
/// square's exactly if fewer than all squares came before, and it is above the word of `last`.
#[inline(always)]
fn may_stand(header: &Header, place: u64, last: Option<Shape>, word: Word) -> bool
    ensures { result ≡ true → (kind_of word ≡ kind_at header.now place) × IsAbove last word }
{
    let is_above = match last {
        None => true,
        Some(shape) => shape.word().bits() < word.bits(),
    };
    let is_square = word.kind() == Kind::Square;
    is_above && is_square == (place < header.squares)
}

/// Reads the line at the front of the bytes, and returns its entry and the bytes after it: what
/// `read_entry` returns, but faster. `place` is how many entries came before it, and `last` the
/// shape of the last of them. None if this fast way can't tell: the line is not well-formed or
/// can't come there, or one of its numbers has more than 18 digits. It takes no memory. This
/// project's own.
#[inline(always)]
pub fn quick_entry<'a>(
    header: &Header,
    place: u64,
    last: Option<Shape>,
    bytes: &'a [u8],
) -> Option<(Entry, &'a [u8])>
    ensures line { IfSome result (λ p. IsLine header.now place p.0) }
    ensures shape { IfSome result (λ p. IsAbove last p.0.shape
        × (least_image p.0.shape ≡ p.0.shape)) }
    ensures same { IfSome result (λ p. bytes.now ≡ line_text header.now.text p.0 ++ p.1.now) }
{
    let (bits, rest) = word_bits(bytes)?;
    let (there, played, rest) = quick_uses(rest)?;
    let (first, rest) = quick_end(rest, header)?;
    let word = Word::new(bits)?;
    if there < 1 || there < played || !may_stand(header, place, last, word) {
        return None;
    }
    let shape = Shape::of_word(word)?;
    let entry = Entry {
        shape,
        there,
        played,
        first: FirstGame::new(first),
    };
    Some((entry, rest))
}
