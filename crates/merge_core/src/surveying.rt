//! Checks dictionaries by ranges of words (lines are in the order of their words): either all are
//! found to be well-formed and are joined, or nothing is found out about them, and they are joined
//! line by line instead.
ghost use Rattle.std.specs.Prelude.{◌≡◌, ◌≤◌, ◌<◌, ◌+◌, ◌^◌, ℕ, List, Some, IfOk, IfSome, IsTrue};
ghost use Rattle.std.specs.Prelude.{length, vec_len, slice_get};
ghost use Rattle.merge_core.specs.declared.tallies.Tally.{Tally as Sums};
ghost use Rattle.merge_core.specs.Inner.Surveys.{Fits, IsFront, IsWhole, IsTotalsOf, IsSurveyed};

use crate::cuts::{Cut, Plan, cut_at, header_at, place_at};
use crate::entries::NextFault;
use crate::judged::Totals;
use crate::measuring::count_all;
use crate::pieces::{ends_at, read_bytes};
use crate::sources::Sources;
use crate::tallies::Tally;
use shape_dict::{Header, read_header};
use std::alloc::Global;
use std::thread::Threads;

/// A plan with this many ranges of words or more is not used; no plan has as many.
const MOST_RANGES: usize = 1 << 32;

/// How many bytes are read for a header: no header has more.
const LONGEST: usize = 1 << 7;

/// Reads the header of dictionary `n`, counted from 0, and returns it and the byte index at which
/// the lines begin. `Memory` if memory was refused; `Read` if the dictionary can't be read or has
/// no header at its front.
pub(crate) fn read_front<S: Sources>(
    alloc: Global,
    sources: &S,
    n: usize,
) -> Result<(Header, usize), NextFault>
    requires few { n + 1 < 2 ^ 64 }
    requires within { n < S.number sources.now }
    ensures { IfOk result (λ p. (text : List ℕ) → S.bytes sources.now n ≡ Some text
        → IsFront text p.0 p.1) }
{
    let Ok(size) = sources.size(n) else {
        return Err(NextFault::Read(n + 1));
    };
    let bytes = match read_bytes(alloc, sources, n, 0, size.min(LONGEST)) {
        Ok(bytes) => bytes,
        Err(fault) => return Err(fault),
    };
    let front = bytes.as_slice();
    let Some((header, rest)) = read_header(front) else {
        return Err(NextFault::Read(n + 1));
    };
    Ok((header, front.len() - rest.len()))
}

/// Whether the lines of a dictionary, by their `tally`, fit its header: as many squares and
/// diamonds as it says, each kind played as often in all as it has moves, and no moves without
/// games.
fn fits(header: &Header, tally: Tally) -> bool
    ensures { IsTrue result → Fits header.now tally }
{
    if header.games == 0 && header.moves != 0 {
        return false;
    }
    if tally.squares != header.squares || tally.squares_played != header.moves {
        return false;
    }
    match header.diamonds {
        None => tally.diamonds == 0,
        Some(diamonds) => { tally.diamonds == diamonds && tally.diamonds_played == header.moves }
    }
}

/// Whether two headers are equal in all their numbers.
fn is_same(one: &Header, other: &Header) -> bool
    ensures { IsTrue result → one.now ≡ other.now }
{
    one == other
}

/// Whether the lines of dictionary `n`, counted from 0, between the cuts `low` and `high` are all
/// that it has after its header, and whether `tally`, how many they are and how often they were
/// played, is what the header says. It reads the header again. False also if a read fails.
fn is_whole<S: Sources>(
    alloc: Global,
    sources: &S,
    headers: &[Header],
    low: &Cut,
    high: &Cut,
    tally: Tally,
    n: usize,
) -> bool
    requires few { n + 1 < 2 ^ 64 }
    requires within { n < S.number sources.now }
    ensures { IsTrue result → IsWhole (S.bytes sources.now) headers.now low.now high.now n tally }
{
    let Some(header) = header_at(headers, n) else {
        return false;
    };
    let Some(from) = place_at(low, n) else {
        return false;
    };
    let Some(to) = place_at(high, n) else {
        return false;
    };
    let Ok((found, place)) = read_front(alloc, sources, n) else {
        return false;
    };
    if !is_same(&found, &header) || place != from || !fits(&header, tally) {
        return false;
    }
    ends_at(sources, n, to)
}

/// Whether each dictionary has, after its header, no lines but those between the cuts `low` and
/// `high`, and as many as the header says. `each` has the tallies of these lines. False also if a
/// read fails.
fn are_whole<S: Sources>(
    alloc: Global,
    sources: &S,
    headers: &[Header],
    low: &Cut,
    high: &Cut,
    each: &[Tally],
) -> bool
    requires all { length each.now ≤ S.number sources.now }
    ensures { IsTrue result → (n : ℕ) → (tally : Sums) → slice_get each.now n ≡ Some tally
        → IsWhole (S.bytes sources.now) headers.now low.now high.now n tally }
{
    for n in 0..each.len() {
        if !is_whole(alloc, sources, headers, low, high, each[n], n) {
            return false;
        }
    }
    true
}

/// Adds up the games and moves of the headers. None if a sum is over 2^64 - 1, if some count
/// diamonds and others don't, or if there is no header.
fn totals_of(headers: &[Header]) -> Option<Totals>
    ensures { IfSome result (IsTotalsOf headers.now) }
{
    let mut games: u64 = 0;
    let mut moves: u64 = 0;
    let mut counts_diamonds = None;
    for header in headers {
        let kinds = header.diamonds.is_some();
        if counts_diamonds.unwrap_or(kinds) != kinds {
            return None;
        }
        counts_diamonds = Some(kinds);
        games = games.checked_add(header.games)?;
        moves = moves.checked_add(header.moves)?;
    }
    Some(Totals {
        games,
        moves,
        counts_diamonds: counts_diamonds?,
    })
}

/// Checks the dictionaries by the ranges of words of `plan`, in about `threads` threads. Returns
/// the totals of their join (its games and moves) and the tally of its patterns that are written
/// (all, or by `plan.least`): how many they are, and how often they were played. None if a check or
/// a read failed, or memory was refused: that says nothing of the dictionaries, which are then
/// joined line by line.
pub(crate) fn survey<T: Threads + Sync, S: Sources + Sync>(
    rt: &T,
    alloc: Global,
    sources: &S,
    plan: &Plan,
    threads: usize,
) -> Option<(Totals, Tally)>
    ensures all { IfSome result (λ p. vec_len plan.now.headers ≡ S.number sources.now) }
    ensures many { IfSome result (λ p. length plan.now.headers.items ≡ S.number sources.now) }
    ensures surveyed { IfSome result (λ p. IsSurveyed (S.bytes sources.now) plan.now p.0 p.1) }
{
    let cuts = plan.cuts.as_slice();
    if plan.headers.len() != sources.count() || cuts.len() < 2 {
        return None;
    }
    let last = cuts.len() - 1;
    if last >= MOST_RANGES {
        return None;
    }
    let Ok(ranged) = count_all(rt, alloc, sources, plan, last, threads) else {
        return None;
    };
    let Some(low) = cut_at(cuts, 0) else {
        return None;
    };
    let Some(high) = cut_at(cuts, last) else {
        return None;
    };
    let headers = plan.headers.as_slice();
    let each = ranged.each.as_slice();
    if each.len() != headers.len() {
        return None;
    }
    if !are_whole(alloc, sources, headers, low, high, each) {
        return None;
    }
    let Some(totals) = totals_of(headers) else {
        return None;
    };
    Some((totals, ranged.joined))
}
