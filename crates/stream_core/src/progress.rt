//! What is remembered of the entries that were read: how many they are, the last shape, and how
//! often they were played.
ghost use Rattle.std.specs.Prelude.{◌≡◌, []};
ghost use Rattle.stream_core.specs.Progress.{IsProgress};
ghost use Rattle.stream_core.specs.Inner.Counting.{CountedTo, added};

use shape_core::{Kind, Shape};
use shape_dict::{Entry, Header};

/// What is remembered of the entries that were read: how many they are (`given`), the last one's
/// shape, and how often the squares and the diamonds were played in all, or None if that is over
/// 2^64 - 1.
#[derive(Clone, Copy, Debug)]
pub struct Progress {
    pub given: u64,
    pub last: Option<Shape>,
    pub squares: Option<u64>,
    pub diamonds: Option<u64>,
}

/// Returns the progress before any entry.
pub(crate) fn start() -> Progress
    ensures of { IsProgress result [] }
    ensures counted { CountedTo result.given result.last }
{
    Progress {
        given: 0,
        last: None,
        squares: Some(0),
        diamonds: Some(0),
    }
}

/// Adds `played` to a sum. None if the sum would pass 2^64 - 1, or is None already.
fn added(sum: Option<u64>, played: u64) -> Option<u64>
    ensures { result ≡ added sum played }
{
    sum?.checked_add(played)
}

impl Progress {
    ghost use Rattle.std.specs.Prelude.{◌≡◌, ◌+◌, ◌++◌, ◌∷◌, [], List, MatchBool};
    ghost use Rattle.shape_dict.specs.Contents.{HasTotals};
    ghost use Rattle.shape_dict.specs.Reading.{IsAbove, counts_of};
    ghost use Rattle.shape_dict.specs.declared.entries.Entry.{Entry as Item};
    ghost use Rattle.stream_core.specs.Progress.{IsProgress};
    ghost use Rattle.stream_core.specs.Inner.Counting.{CountedTo};

    /// Returns the progress after one more entry, `entry`.
    pub(crate) fn with(self, entry: &Entry) -> Progress
        requires counted { CountedTo self.given self.last }
        requires above { IsAbove self.last entry.now.shape }
        ensures of { (entries : List Item) → IsProgress self entries
            → IsProgress result (entries ++ entry.now ∷ []) }
        ensures counted { CountedTo result.given result.last }
        ensures count { result.given ≡ self.given + 1 }
        ensures last { result.last ≡ Some entry.now.shape }
    {
        let last = Some(entry.shape);
        let given = self.given + 1;
        match entry.shape.word().kind() {
            Kind::Square => Progress {
                given,
                last,
                squares: added(self.squares, entry.played),
                diamonds: self.diamonds,
            },
            Kind::Diamond => Progress {
                given,
                last,
                squares: self.squares,
                diamonds: added(self.diamonds, entry.played),
            },
        }
    }

    /// Whether the entries fit the header's moves: the squares were played as often in all as there
    /// are moves, and so were the diamonds if they are counted. False if there are moves and no
    /// games.
    pub(crate) fn has_totals(&self, header: &Header) -> bool
        ensures { (entries : List Item) → IsProgress self.now entries
            → MatchBool result (HasTotals header.now.games header.now.moves entries
            (counts_of header.now)) (HasTotals header.now.games header.now.moves entries
            (counts_of header.now) → ⊥) }
    {
        if header.games == 0 && header.moves != 0 {
            return false;
        }
        if self.squares != Some(header.moves) {
            return false;
        }
        header.diamonds.is_none() || self.diamonds == Some(header.moves)
    }
}
