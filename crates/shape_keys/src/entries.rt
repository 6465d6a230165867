//! The entries and the header of a dictionary, as they cross to other languages: the structs of
//! `include/shapes.h` (and `Entry` of `examples/shapes.py`), field by field, in the same order.
ghost use Rattle.std.specs.Prelude.{◌≡◌};
ghost use Rattle.shape_keys.specs.Entries.{or_unknown, said, said_header};

use shape_dict::{Entry, Header, count_lines};

/// One pattern of a dictionary: its canonical word, how often it was there, how often it was
/// played, and the first game that had it, from 0, or 2^64 - 1 if that is not known.
#[repr(C)]
#[derive(Clone, Copy)]
pub struct ShapesEntry {
    pub shape: u64,
    pub there: u64,
    pub played: u64,
    pub first: u64,
}

/// What the header of a dictionary's text says: how many games and moves were counted, and how many
/// lines for squares and for diamonds follow. `diamonds` is 2^64 - 1 if diamonds were not counted.
/// `patterns` is the sum of both, or the squares alone if diamonds were not counted, and 2^64 - 1
/// if it is more.
#[repr(C)]
#[derive(Clone, Copy)]
pub struct ShapesHeader {
    pub games: u64,
    pub moves: u64,
    pub squares: u64,
    pub diamonds: u64,
    pub patterns: u64,
}

/// Returns the number, or 2^64 - 1 if it is None.
fn or_unknown(number: Option<u64>) -> u64
    ensures { result ≡ or_unknown number }
{
    number.unwrap_or(u64::MAX)
}

/// Returns an entry as the struct that crosses to other languages; a first game that is not known
/// is 2^64 - 1.
pub(crate) fn said(entry: &Entry) -> ShapesEntry
    ensures { result ≡ said entry.now }
{
    ShapesEntry {
        shape: entry.shape.word().bits(),
        there: entry.there,
        played: entry.played,
        first: or_unknown(entry.first.get()),
    }
}

/// Returns a header as the struct that crosses to other languages; a number of diamonds is 2^64 - 1
/// if these were not counted.
pub(crate) fn said_header(header: &Header) -> ShapesHeader
    ensures { result ≡ said_header header.now }
{
    ShapesHeader {
        games: header.games,
        moves: header.moves,
        squares: header.squares,
        diamonds: or_unknown(header.diamonds),
        patterns: count_lines(header),
    }
}
