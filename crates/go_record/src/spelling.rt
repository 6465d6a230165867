//! How numbers, sizes and points are spelled in a value.
ghost use Rattle.std.specs.Prelude.{◌≡◌, ◌<◌, ℕ, min, reverse, false, true, IsTrue, MatchOption};
ghost use Rattle.std.specs.Prelude.{Option, map, position};
ghost use Rattle.std.specs.Option.{option_map};
ghost use Rattle.std.specs.List.{list_any, before_first, after_first};
ghost use Rattle.sgf_core.specs.Bytes.{is_upper, is_lower};
ghost use Rattle.go_record.specs.Spelling.{without_white_front, trimmed, is_digit, unsigned_of};
ghost use Rattle.go_record.specs.Spelling.{number_of, side_of, is_colon, extent_of, size_of};
ghost use Rattle.go_record.specs.Point.{coordinate_of, point_of};
ghost use Rattle.go_record.specs.declared.spelling.TheConstants.{CAP};

use go_board::{Point, Size};
use sgf_core::is_white;

/// A number above `CAP` is read as `CAP`. No rule treats the two differently: each asks for 1, or
/// for a side up to 52.
const CAP: u32 = 100;

/// Returns the bytes without the white space at their beginning.
fn without_white_front(bytes: &[u8]) -> &[u8]
    ensures { result.now ≡ without_white_front bytes.now }
{
    let mut rest = bytes;
    while let [byte, after @ ..] = rest {
        if !is_white(*byte) {
            break;
        }
        rest = after;
    }
    rest
}

/// Returns the bytes without the white space at their end.
fn without_white_back(bytes: &[u8]) -> &[u8]
    ensures { result.now ≡ reverse (without_white_front (reverse bytes.now)) }
{
    let mut rest = bytes;
    while let [before @ .., byte] = rest {
        if !is_white(*byte) {
            break;
        }
        rest = before;
    }
    rest
}

/// Returns the bytes without the white space at both ends.
pub(crate) fn trimmed(bytes: &[u8]) -> &[u8]
    ensures { result.now ≡ trimmed bytes.now }
{
    without_white_back(without_white_front(bytes))
}

/// Whether this byte is a decimal digit in ASCII.
fn is_digit(byte: u8) -> bool
    ensures { result ≡ is_digit byte }
{
    byte.is_ascii_digit()
}

/// Returns the number that decimal digits spell, or `CAP` if it is greater. None if there are no
/// digits, or a byte is no digit.
fn unsigned(digits: &[u8]) -> Option<u32>
    ensures { result ≡ option_map (λ n. min n CAP) (unsigned_of digits.now) }
{
    if digits.is_empty() {
        return None;
    }
    let mut total: u32 = 0;
    for digit in digits {
        if !is_digit(*digit) {
            return None;
        }
        total = (10 * total + u32::from(*digit - b'0')).min(CAP);
    }
    Some(total)
}

/// Returns the number that a text spells, or `CAP` if it is greater. None if the text is not
/// decimal digits, with or without a plus sign before them.
pub(crate) fn number(text: &[u8]) -> Option<u32>
    ensures { result ≡ option_map (λ n. min n CAP) (number_of text.now) }
{
    match text {
        [b'+', digits @ ..] => unsigned(digits),
        digits => unsigned(digits),
    }
}

/// Returns the size whose columns and rows these texts spell. None if one is no number, or is
/// outside 1 to 52.
fn sides(columns: &[u8], rows: &[u8]) -> Option<Size>
    ensures { result ≡ extent_of (side_of columns.now) (side_of rows.now) }
{
    let columns = number(columns)?;
    let rows = number(rows)?;
    Size::new(columns as u8, rows as u8)
}

/// Returns the byte index of the first colon, or None if there is no colon.
fn colon_at(text: &[u8]) -> Option<usize>
    ensures { result ≡ position is_colon text.now }
{
    text.iter().position(|byte| *byte == b':')
}

/// Returns the parts before and after the first colon, or None if there is no colon.
pub(crate) fn split_colon(text: &[u8]) -> Option<(&[u8], &[u8])>
    ensures { MatchOption result (list_any is_colon text.now ≡ false)
        (λ parts. (list_any is_colon text.now ≡ true)
        × (parts.0.now ≡ before_first is_colon text.now)
        × (parts.1.now ≡ after_first is_colon text.now)) }
{
    let at = colon_at(text)?;
    Some((&text[..at], &text[at + 1..]))
}

/// Returns the column or row of a letter: 0 to 25 for `a` to `z`, 26 to 51 for `A` to `Z`. None for
/// any other byte.
fn coordinate(letter: u8) -> Option<u8>
    ensures { result ≡ coordinate_of letter }
{
    match letter {
        b'a'..=b'z' => Some(letter - b'a'),
        b'A'..=b'Z' => Some(letter - b'A' + 26),
        _ => None,
    }
}

/// Returns the point that a text spells: two letters, the column and the row, `a` to `z` for 0 to
/// 25 and `A` to `Z` for 26 to 51. None for any other text.
pub(crate) fn point(text: &[u8]) -> Option<Point>
    ensures { result ≡ point_of text.now }
{
    match text {
        [column, row] => Some(Point {
            column: coordinate(*column)?,
            row: coordinate(*row)?,
        }),
        _ => None,
    }
}

/// Returns the size that a value of SZ spells: a number for a square board, or columns, a colon and
/// rows. An empty value is 19 by 19. None if it is no size from 1 to 52 by 1 to 52.
pub(crate) fn size(bytes: &[u8]) -> Option<Size>
    ensures { result ≡ size_of bytes.now }
{
    let text = trimmed(bytes);
    if text.is_empty() {
        return Size::new(19, 19);
    }
    match split_colon(text) {
        Some((columns, rows)) => sides(trimmed(columns), trimmed(rows)),
        None => sides(text, text),
    }
}
