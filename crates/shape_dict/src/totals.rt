//! Whether the plays of a dictionary's patterns add up to its moves.
ghost use Rattle.std.specs.Prelude.{◌≡◌, MatchBool};
ghost use Rattle.shape_dict.specs.Contents.{of_kind, played_in, HasTotals};
ghost use Rattle.shape_dict.specs.Reading.{counts_of};

use crate::entries::Entry;
use crate::headers::Header;
use crate::kinds::played_in;
use shape_core::Kind;

/// Whether the patterns of `kind` were played `moves` times in all.
fn agree(kind: Kind, entries: &[Entry], moves: u64) -> bool
    ensures { MatchBool result (played_in (of_kind kind entries.now) ≡ moves)
        (played_in (of_kind kind entries.now) ≡ moves → ⊥) }
{
    match played_in(kind, entries) {
        Some(played) => played == moves,
        None => false,
    }
}

/// Whether the entries fit the header's moves: the squares were played as often in all as there are
/// moves, and so were the diamonds if they are counted. False if there are moves and no games.
pub(crate) fn have_totals(header: &Header, entries: &[Entry]) -> bool
    ensures { MatchBool result (HasTotals header.now.games header.now.moves entries.now
        (counts_of header.now)) (HasTotals header.now.games header.now.moves entries.now
        (counts_of header.now) → ⊥) }
{
    if header.games == 0 && header.moves != 0 {
        return false;
    }
    if !agree(Kind::Square, entries, header.moves) {
        return false;
    }
    match header.diamonds {
        Some(_) => agree(Kind::Diamond, entries, header.moves),
        None => true,
    }
}
