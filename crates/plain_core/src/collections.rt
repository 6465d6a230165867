//! A whole collection, counted by one thread.
ghost use Rattle.std.specs.Prelude.{◌≡◌, ℕ, ◌<◌, List, All, map, length, IfOk, IfErr};
ghost use Rattle.std.specs.List.Sorted.{IsStrictlyIncreasing};
ghost use Rattle.sgf_core.specs.declared.faults.SgfFault.TheVariants as sgf;
ghost use Rattle.tally_core.specs.Counted.{IsCounted, IsCountFault};
ghost use Rattle.range_core.specs.Entries.{IsShape};
ghost use Rattle.plain_core.specs.Inner.Counting.{CountsAll, IsEndOf};
ghost use Rattle.plain_core.specs.declared.counting.Counter.{Counter};
ghost use Rattle.tally_core.specs.declared.faults.TallyFault.TheVariants as fault;
ghost use Rattle.sgf_core.specs.Limit.{most_bytes};

use crate::counting::{Counter, count_games};
use crate::dictionaries::entries_of;
use crate::gathering::dictionary_of;
use crate::walkers::Walker;
use game_core::Report;
use shape_core::Kinds;
use shape_dict::{Entry, PieceDictionary};
use std::alloc::{AllocError, Global};
use tally_core::{Counted, TallyFault};

/// Returns for how many patterns to make room: one and a half for each of the input's `bytes`, but
/// at most 2^22. A move takes six bytes, and brings some eight patterns that the collection has not
/// had yet, so there is mostly room to spare.
fn likely_patterns(bytes: usize) -> usize {
    (bytes / 2).saturating_mul(3).min(1 << 22)
}

/// Makes the result of counting a collection from what was counted: how many `moves` onto empty
/// points its games have, the `report` on its trees, and the `entries` of its patterns in the order
/// of their words. `kinds` says whether diamonds were counted. It takes memory for a list whose one
/// item is that list of entries; `AllocError` if that is refused.
fn counted_of(
    alloc: Global,
    kinds: Kinds,
    moves: u64,
    report: Report,
    entries: Vec<Entry>,
) -> Result<Counted, AllocError>
    requires counted { (bytes : List ℕ) × (counter : Counter)
        × CountsAll kinds bytes report counter × IsEndOf counter moves entries.items }
    requires shapes { All IsShape entries.items }
    requires rises { IsStrictlyIncreasing (map (λ entry. entry.shape) entries.items) }
    ensures { (bytes : List ℕ) (counter : Counter) → CountsAll kinds bytes report counter
        → IsEndOf counter moves entries.items → IfOk result (IsCounted kinds bytes) }
{
    let dictionary = dictionary_of(kinds, report.games, moves, entries).into_pieces(alloc)?;
    Ok(Counted { dictionary, report })
}

/// Counts a whole collection, the input `bytes`, on one thread. Returns the dictionary of its
/// games, and how many of its trees are games of Go, are of other games, and are refused. Games are
/// numbered from 0 in their order.
///
/// `kinds` says which kinds of pattern are counted: squares alone, or diamonds too. It takes memory
/// for the largest tree and its record, for the board, and for each pattern.
///
/// # Errors
///
/// `TallyFault::Sgf` with `SgfFault::TooLarge` if there are more than 2^28 bytes, else with the
/// first fault of syntax in the input; `TallyFault::Memory` if memory was refused.
/// `TallyFault::Overflow` is never returned: no count of an input that is not too large passes
/// 2^64 - 1.
pub fn count_plain(alloc: Global, kinds: Kinds, bytes: &[u8]) -> Result<Counted, TallyFault>
    ensures counted { IfOk result (IsCounted kinds bytes.now) }
    ensures fault { IfErr result (IsCountFault bytes.now) }
    ensures large { most_bytes < length bytes.now
        → IfErr result (λ found. found ≡ fault.Sgf sgf.TooLarge) }
{
    let mut walker = Walker::begin(alloc, kinds, bytes)?;
    let mut counter = Counter::new(alloc, likely_patterns(bytes.len()));
    count_games(&mut walker, &mut counter)?;
    let report = walker.report();
    let Counter { counts, moves } = counter;
    Ok(counted_of(alloc, kinds, moves, report, entries_of(counts))?)
}
