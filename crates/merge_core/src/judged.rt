//! What is remembered of dictionaries that were checked to be well-formed: their totals.
ghost use Rattle.std.specs.Prelude.{IfOk, IfErr};
ghost use Rattle.merge_core.specs.Inner.Judging.{IsTotal, IsBoth, IsBothFault};

use shape_dict::DictFault;

/// How many games and moves dictionaries have together, and whether they count diamonds.
#[derive(Clone, Copy)]
pub(crate) struct Totals {
    pub(crate) games: u64,
    pub(crate) moves: u64,
    pub(crate) counts_diamonds: bool,
}

/// What is remembered of dictionaries that were checked to be well-formed: their totals, and how
/// often their patterns were there in all, or 2^64 - 1 if that is more.
#[derive(Clone, Copy)]
pub(crate) struct Judged {
    pub(crate) totals: Totals,
    pub(crate) there: u64,
}

/// Adds up the totals of dictionaries and of those that follow them. `MixedKinds` if one of the two
/// counts diamonds and the other does not, `Overflow` if a sum is over 2^64 - 1.
pub(crate) fn total_of(before: Totals, next: Totals) -> Result<Totals, DictFault>
    ensures ok { IfOk result (IsTotal before next) }
    ensures fault { IfErr result (IsBothFault before next) }
{
    if before.counts_diamonds != next.counts_diamonds {
        return Err(DictFault::MixedKinds);
    }
    let Some(games) = before.games.checked_add(next.games) else {
        return Err(DictFault::Overflow);
    };
    let Some(moves) = before.moves.checked_add(next.moves) else {
        return Err(DictFault::Overflow);
    };
    Ok(Totals {
        games,
        moves,
        counts_diamonds: before.counts_diamonds,
    })
}

/// Adds up what is remembered of checked dictionaries and of those that follow them. `there`
/// saturates: if it is below 2^64 - 1, no pattern's sum is too large. `MixedKinds` if one of the
/// two counts diamonds and the other does not, `Overflow` if the games or the moves pass 2^64 - 1.
pub(crate) fn both_of(before: Judged, next: Judged) -> Result<Judged, DictFault>
    ensures ok { IfOk result (IsBoth before next) }
    ensures fault { IfErr result (IsBothFault before.totals next.totals) }
{
    match total_of(before.totals, next.totals) {
        Ok(totals) => Ok(Judged {
            totals,
            there: before.there.saturating_add(next.there),
        }),
        Err(fault) => Err(fault),
    }
}
