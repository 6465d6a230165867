//! How a join is written: in which of the three texts of dictionaries, and which of its patterns.
ghost use Rattle.std.specs.Prelude.{◌≡◌};
ghost use Rattle.shape_dict.specs.Contents.{is_square};
ghost use Rattle.merge_core.specs.Entries.{IsSmallUse};
ghost use Rattle.merge_core.specs.Least.{is_kept};

use shape_core::Kind;
use shape_dict::{Entry, Text};

/// In which text a join is written, and which of its patterns.
#[derive(Clone, Copy, Debug, PartialEq, Eq)]
pub struct Form {
    /// The text format, one of the three in which a dictionary can be written.
    pub text: Text,
    /// If this is a number, only the squares that were there at least that often are written, and
    /// the header's moves are those at which one of them was played. If it is None, all patterns
    /// that the text format has are written.
    pub least: Option<u64>,
}

/// Whether a pattern is a square.
pub(crate) fn is_square(entry: Entry) -> bool
    ensures square { result ≡ is_square entry }
    ensures small { IsSmallUse entry }
{
    entry.shape.word().kind() == Kind::Square
}

/// Whether the join keeps a pattern: always if `least` is None, else if it is a square that was
/// there at least `least` times.
pub(crate) fn is_kept(least: Option<u64>, entry: &Entry) -> bool
    ensures kept { result ≡ is_kept least entry.now }
    ensures small { IsSmallUse entry.now }
{
    let there = entry.there;
    let square = is_square(*entry);
    match least {
        Some(least) => square && least <= there,
        None => true,
    }
}
