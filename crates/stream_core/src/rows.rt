//! Reads rows: some lines out of a text, whose words (the numbers of patterns) lie in a range.
ghost use Rattle.std.specs.Prelude.{◌≡◌, ◌++◌, ◌≤◌, IfOk, IfSome};
ghost use Rattle.std.specs.List.{flat_map};
ghost use Rattle.shape_dict.specs.Text.{line_text};
ghost use Rattle.stream_core.specs.Rows.{AreRows, IsRow};

use shape_dict::{Entry, Header, quick_entry};
use std::alloc::{AllocError, Global};

/// No line is shorter: 13 digits, two numbers, a space before each, and the line feed.
const SHORTEST: usize = 18;

/// The words from this number on are those of diamonds.
const DIAMONDS: u64 = 1 << 50;

/// Returns the header, changed so that all its lines are of one kind, that of the word `low`.
fn of_one_kind(header: &Header, low: u64) -> Header
    ensures text { result.text ≡ header.now.text }
    ensures games { result.games ≡ header.now.games }
{
    let squares = if low < DIAMONDS { u64::MAX } else { 0 };
    Header { squares, ..*header }
}

/// Reads the line at the front of the bytes, and returns its entry and the bytes after it. None if
/// its word is below `least`, or if `quick_entry` returns None: the line is not well-formed, its
/// counts or its first game are not possible, it is not of the kind of all lines under the header
/// `kinds`, or one of its numbers has more than 18 digits.
#[inline(always)]
fn next_row<'a>(kinds: &Header, least: u64, bytes: &'a [u8]) -> Option<(Entry, &'a [u8])>
    ensures row { IfSome result (λ p. IsRow kinds.now p.0) }
    ensures least { IfSome result (λ p. least ≤ p.0.shape) }
    ensures same { IfSome result (λ p. bytes.now ≡ line_text kinds.now.text p.0 ++ p.1.now) }
{
    let Some((entry, rest)) = quick_entry(kinds, 0, None, bytes) else {
        return None;
    };
    if entry.shape.word().bits() < least {
        return None;
    }
    Some((entry, rest))
}

/// Reads `bytes`, whole lines out of a text with this header, and returns their entries. Their
/// words must rise from `low` on, stay below `high` and all be of the kind of `low`, square or
/// diamond. None if that is not so, or a line is not well-formed or has a number of more than 18
/// digits: the text may be well-formed all the same. It takes memory for the entries.
///
/// # Errors
///
/// `AllocError` if memory was refused.
pub fn read_rows(
    alloc: Global,
    header: &Header,
    low: u64,
    high: u64,
    bytes: &[u8],
) -> Result<Option<Vec<Entry>>, AllocError>
    ensures rows { IfOk result (λ found. IfSome found (λ entries.
        AreRows header.now low high entries.items)) }
    ensures same { IfOk result (λ found. IfSome found (λ entries.
        bytes.now ≡ flat_map (line_text header.now.text) entries.items)) }
{
    let kinds = of_one_kind(header, low);
    let mut entries = Vec::with_capacity(alloc, bytes.len() / SHORTEST)?;
    let mut least = low;
    let mut left = bytes;
    while !left.is_empty() {
        let Some((entry, rest)) = next_row(&kinds, least, left) else {
            return Ok(None);
        };
        least = entry.shape.word().bits() + 1;
        entries.push(entry)?;
        left = rest;
    }
    if least > high {
        return Ok(None);
    }
    Ok(Some(entries))
}
