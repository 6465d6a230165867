//! Joins what all dictionaries have in a range of words, from one cut up to the next (lines are in
//! the order of their words).
ghost use Rattle.std.specs.Prelude.{◌≡◌, ◌≤◌, ◌<◌, ◌+◌, ◌++◌, ◌∷◌, [], ◌^◌, List, IfOk, length, vec_len};
ghost use Rattle.merge_core.specs.declared.tallies.Tally.{Tally as Sums};
ghost use Rattle.shape_dict.specs.Inner.Merging.{merged};
ghost use Rattle.merge_core.specs.Inner.Ranges.{AreJoined, AreTallies, Each, HasRangeAt};
ghost use Rattle.merge_core.specs.Inner.Ranges.{IsPiece, IsTally};
ghost use Rattle.merge_core.specs.Inner.Ranges.{Piece, games_in};

use crate::cuts::{Plan, cut_at, header_at};
use crate::entries::NextFault;
use crate::merging::merge;
use crate::pieces::{Range, piece_of};
use crate::sources::Sources;
use crate::tallies::{Tally, tally_of};
use shape_dict::Entry;
use std::alloc::Global;

/// The join of what dictionaries that follow one another have in a range of words, and how many
/// games these dictionaries have.
#[derive(Drop)]
pub(crate) struct Joined {
    pub(crate) games: u64,
    pub(crate) entries: Vec<Entry>,
}

/// Returns the entries that dictionary `n`, counted from 0, has in a range of words, and how many
/// games the dictionary has. The tally of these entries (how many squares and diamonds they are,
/// and how often they were played) is appended to `each`.
fn one_joined<S: Sources>(
    alloc: Global,
    sources: &S,
    range: Range<'_>,
    n: usize,
    each: &mut Vec<Tally>,
) -> Result<Joined, NextFault>
    requires few { n + 1 < 2 ^ 64 }
    requires within { n < S.number sources.now }
    ensures { IfOk result (λ joined. (p : Piece) × IsPiece (S.bytes sources.now)
        range.entry.headers.now range.entry.low.now range.entry.high.now n p
        × (joined.entries.items ≡ p.entries) × (joined.games ≡ p.header.games)
        × ((tally : Sums) × (each.new.items ≡ each.old.items ++ tally ∷ [])
        × IsTally p.entries tally)) }
{
    let Some(header) = header_at(range.headers, n) else {
        return Err(NextFault::Changed);
    };
    let entries = match piece_of(alloc, sources, range, n) {
        Ok(entries) => entries,
        Err(fault) => return Err(fault),
    };
    let Some(tally) = tally_of(&entries) else {
        return Err(NextFault::Overflow);
    };
    if each.push(tally).is_err() {
        return Err(NextFault::Memory);
    }
    Ok(Joined {
        games: header.games,
        entries,
    })
}

/// Joins what some dictionaries, `left`, and those that follow them, `right`, have in a range of
/// words. `Overflow` if a sum is over 2^64 - 1, `Changed` if a first game would pass 2^64 - 2, and
/// `Memory` if memory was refused.
fn both_joined(alloc: Global, left: &Joined, right: &Joined) -> Result<Joined, NextFault>
    ensures games { IfOk result (λ both. both.games ≡ left.now.games + right.now.games) }
    ensures entries { IfOk result (λ both. both.entries.items
        ≡ merged left.now.games left.now.entries.items right.now.entries.items) }
{
    let Some(games) = left.games.checked_add(right.games) else {
        return Err(NextFault::Overflow);
    };
    match merge(alloc, left.games, &left.entries, &right.entries) {
        Ok(entries) => Ok(Joined { games, entries }),
        Err(fault) => Err(fault),
    }
}

/// Joins what `count` dictionaries have in a range of words, from dictionary `from` on, counted
/// from 0: what the first half has with what the other half has. The tally of each dictionary (how
/// many squares and diamonds, and how often played) is appended to `each`.
pub(crate) fn join_range<S: Sources>(
    alloc: Global,
    sources: &S,
    range: Range<'_>,
    from: usize,
    count: usize,
    each: &mut Vec<Tally>,
) -> Result<Joined, NextFault>
    requires some { 1 ≤ count }
    requires few { from + count < 2 ^ 64 }
    requires within { from + count ≤ S.number sources.now }
    ensures { IfOk result (λ joined. (ps : List Piece)
        × Each (IsPiece (S.bytes sources.now) range.entry.headers.now range.entry.low.now range.entry.high.now) from ps
        × (length ps ≡ count) × (joined.games ≡ games_in ps)
        × AreJoined ps range.entry.low.now.word range.entry.high.now.word joined.entries.items
        × ((ts : List Sums) × (each.new.items ≡ each.old.items ++ ts) × AreTallies ps ts)) }
{
    if count == 1 {
        return one_joined(alloc, sources, range, from, each);
    }
    let half = count / 2;
    let left = match join_range(alloc, sources, range, from, half, each) {
        Ok(left) => left,
        Err(fault) => return Err(fault),
    };
    let right = match join_range(alloc, sources, range, from + half, count - half, each) {
        Ok(right) => right,
        Err(fault) => return Err(fault),
    };
    both_joined(alloc, &left, &right)
}

/// Joins what all dictionaries have in the range of words from cut `n`, counted from 0, up to the
/// next cut. The tally of each dictionary (how many squares and diamonds, and how often played) is
/// appended to `each`. `Changed` if there is no such cut, or no dictionary.
pub(crate) fn join_at<S: Sources>(
    alloc: Global,
    sources: &S,
    plan: &Plan,
    n: usize,
    each: &mut Vec<Tally>,
) -> Result<Joined, NextFault>
    requires all { vec_len plan.now.headers ≡ S.number sources.now }
    requires few { n + 1 < 2 ^ 64 }
    ensures { IfOk result (λ joined. (h : HasRangeAt (S.bytes sources.now) plan.now n
        joined.entries.items) × ((ts : List Sums) × (each.new.items ≡ each.old.items ++ ts)
        × AreTallies h.has.pieces ts)) }
{
    let headers = plan.headers.as_slice();
    let Some(low) = cut_at(&plan.cuts, n) else {
        return Err(NextFault::Changed);
    };
    let Some(high) = cut_at(&plan.cuts, n + 1) else {
        return Err(NextFault::Changed);
    };
    if headers.is_empty() {
        return Err(NextFault::Changed);
    }
    let range = Range { headers, low, high };
    join_range(alloc, sources, range, 0, headers.len(), each)
}
