//! Counts the patterns that a join of dictionaries keeps, and how often they were played.
ghost use Rattle.std.specs.Prelude.{◌≡◌, ◌≤◌, ◌<◌, ◌^◌, ℕ, Bool, List, length, MatchResult, IfOk};
ghost use Rattle.shape_dict.specs.declared.entries.Entry.{Entry as One};
ghost use Rattle.shape_dict.specs.Contents.{Contents};
ghost use Rattle.merge_core.specs.Inner.Folds.{FoldsAll};
ghost use Rattle.merge_core.specs.Inner.Leaves.{Offers};
ghost use Rattle.merge_core.specs.Entries.{IsNextFault};
ghost use Rattle.merge_core.specs.Inner.Ranges.{IsCountOf};
ghost use Rattle.merge_core.specs.Inner.Judging.{HasJoined};
ghost use Rattle.merge_core.specs.Inner.Trees.{Yields};
ghost use Rattle.merge_core.specs.Merge.{AreInputs};

use crate::entries::{Entries, NextFault};
use crate::growing::{Grown, grow};
use crate::judged::Totals;
use crate::sources::Sources;
use crate::tallies::{Tally, no_tally, with_kept};
use crate::trees::{Tree, next_of};
use std::alloc::Global;

/// Reads all entries (patterns with their counts) of the join that `tree` makes, and stores none.
/// Returns how many different squares and diamonds the join keeps, and how often these were played.
/// It keeps all patterns if `least` is None, else only squares that were there at least `least`
/// times. `Changed` if a sum is over 2^64 - 1, else a fault of reading.
pub(crate) fn tally_of_kept<E: Entries>(
    mut tree: Tree<E>,
    least: Option<u64>,
) -> Result<Tally, NextFault>
    ensures all { (all : List One) → Yields E.yields tree all
        → MatchResult result (IsCountOf least all) (IsNextFault all) }
    ensures came { IfOk result (λ counts. (all : List One) × IsCountOf least all counts
        × Yields E.came tree all) }
{
    let mut counts = no_tally();
    for _place in 0..u64::MAX {
        match next_of(&mut tree) {
            Ok(Some(entry)) => {
                counts = match with_kept(least, counts, &entry) {
                    Some(next) => next,
                    None => return Err(NextFault::Changed),
                };
            }
            Ok(None) => return Ok(counts),
            Err(fault) => return Err(fault),
        }
    }
    Err(NextFault::Changed)
}

/// Makes the join of the first `count` dictionaries entry by entry, to count it: nothing is written
/// or stored. Returns the totals of the dictionaries (their games and moves), and how many
/// different squares and diamonds the join keeps and how often these were played. It keeps all
/// patterns if `least` is None, else only squares that were there at least `least` times. Each
/// dictionary is read to its end: `Ok` means that all are well-formed. `Overflow` if a pattern's
/// sum is over 2^64 - 1, `Changed` if the totals or the counts of patterns can't be added up,
/// `Memory` if memory was refused, else `Read`.
pub(crate) fn count_join<S: Sources>(
    alloc: Global,
    sources: &S,
    count: usize,
    least: Option<u64>,
) -> Result<(Totals, Tally), NextFault>
    requires some { 1 ≤ count }
    requires few { count < 2 ^ 64 }
    requires within { count ≤ S.number sources.now }
    ensures known { (kind : Bool) → (all : List Contents)
        → Offers (S.bytes sources.now) kind 0 all → length all ≡ count
        → (sum : Contents) × FoldsAll all sum
        × MatchResult result (λ p. IsCountOf least sum.entries p.1) (IsNextFault sum.entries) }
    ensures judged { IfOk result (λ p. (inputs : List (List ℕ))
        → AreInputs (S.bytes sources.now) 0 inputs → length inputs ≡ count
        → HasJoined (S.bytes sources.now) least p.0 p.1 inputs) }
{
    let Grown { tree, totals } = match grow(alloc, sources, 0, count) {
        Ok(grown) => grown,
        Err(fault) => return Err(fault),
    };
    match tally_of_kept(tree, least) {
        Ok(counts) => Ok((totals, counts)),
        Err(fault) => Err(fault),
    }
}
