//! Builds the tree that joins dictionaries which follow one another: at each leaf are the lines of
//! one, and each node joins two.
ghost use Rattle.std.specs.Prelude.{◌≡◌, ◌≤◌, ◌<◌, ◌+◌, ◌^◌, ℕ, List, Bool, length, MatchResult};
ghost use Rattle.std.specs.Prelude.{IfOk};
ghost use Rattle.shape_dict.specs.Contents.{Contents};
ghost use Rattle.shape_dict.specs.Inner.Merging.{merged};
ghost use Rattle.shape_dict.specs.declared.entries.Entry.{Entry as One};
ghost use Rattle.merge_core.specs.Entries.{IsNextFault};
ghost use Rattle.merge_core.specs.Inner.Folds.{FoldsAll};
ghost use Rattle.merge_core.specs.Inner.Judging.{IsTotal, HasSummed};
ghost use Rattle.merge_core.specs.Inner.Leaves.{HasLeft, HasCome, Offers};
ghost use Rattle.merge_core.specs.Merge.{AreInputs};
ghost use Rattle.merge_core.specs.Inner.Trees.{Yields};

use crate::entries::{Entries, NextFault};
use crate::heads::Heads;
use crate::judged::{Totals, total_of};
use crate::leaves::{Leaf, open_leaf};
use crate::sources::Sources;
use crate::trees::{Tree, next_of};
use std::alloc::Global;

/// A tree of joins, and the totals (games and moves) of the dictionaries at its leaves.
#[derive(Drop)]
pub(crate) struct Grown<E> {
    pub(crate) tree: Tree<E>,
    pub(crate) totals: Totals,
}

/// Makes one tree that joins the entries of the trees `left` and `right`, with the games of `right`
/// after those of `left`. The first entry of each of the two is read at once. `Changed` if their
/// totals can't be added, `Memory` if memory was refused, else a fault of reading the first
/// entries.
fn pair<E: Entries>(alloc: Global, left: Grown<E>, right: Grown<E>) -> Result<Grown<E>, NextFault>
    ensures next { (mine : List One) → (other : List One) → Yields E.yields left.tree mine
        → Yields E.yields right.tree other → MatchResult result
        (λ both. Yields E.yields both.tree (merged left.totals.games mine other))
        (IsNextFault (merged left.totals.games mine other)) }
    ensures came { IfOk result (λ both. (entries : List One) → Yields E.came both.tree entries
        → (mine : List One) × (other : List One) × Yields E.came left.tree mine
        × Yields E.came right.tree other × (entries ≡ merged left.totals.games mine other)) }
    ensures totals { IfOk result (λ both. IsTotal left.totals right.totals both.totals) }
{
    let Grown {
        tree: mut first,
        totals: left_totals,
    } = left;
    let Grown {
        tree: mut second,
        totals: right_totals,
    } = right;
    let Ok(totals) = total_of(left_totals, right_totals) else {
        return Err(NextFault::Changed);
    };
    let of_first = match next_of(&mut first) {
        Ok(next) => next,
        Err(fault) => return Err(fault),
    };
    let of_second = match next_of(&mut second) {
        Ok(next) => next,
        Err(fault) => return Err(fault),
    };
    let heads = Heads {
        games: left_totals.games,
        left: of_first,
        right: of_second,
    };
    let Ok(left) = Box::new(alloc, first) else {
        return Err(NextFault::Memory);
    };
    let Ok(right) = Box::new(alloc, second) else {
        return Err(NextFault::Memory);
    };
    Ok(Grown {
        tree: Tree::Node { left, right, heads },
        totals,
    })
}

/// Opens `count` dictionaries, from number `from` on, counted from 0, and builds the tree that
/// joins them. It joins the tree of the first half and that of the other, so that an entry goes
/// through at most log2(`count`) nodes, rounded up. If there are two or more, it reads their first
/// entries. `Changed` if totals can't be added, `Memory` if memory was refused, `Read` or another
/// fault if a dictionary can't be opened or its first entries can't be read or joined.
pub(crate) fn grow<S: Sources>(
    alloc: Global,
    sources: &S,
    from: usize,
    count: usize,
) -> Result<Grown<Leaf<S::Reader>>, NextFault>
    requires some { 1 ≤ count }
    requires few { from + count < 2 ^ 64 }
    requires within { from + count ≤ S.number sources.now }
    ensures left { (kind : Bool) → (all : List Contents)
        → Offers (S.bytes sources.now) kind from all → length all ≡ count
        → (sum : Contents) × FoldsAll all sum × MatchResult result
        (λ grown. (grown.totals.games ≡ sum.games)
        × Yields (λ leaf. HasLeft leaf.lines) grown.tree sum.entries)
        (IsNextFault sum.entries) }
    ensures came { IfOk result (λ grown. (inputs : List (List ℕ)) → (entries : List One)
        → AreInputs (S.bytes sources.now) from inputs → length inputs ≡ count
        → Yields (λ leaf. HasCome leaf.lines) grown.tree entries
        → HasSummed (S.bytes sources.now) from grown.totals inputs entries) }
{
    if count == 1 {
        return match open_leaf(alloc, sources, from) {
            Ok((leaf, totals)) => Ok(Grown {
                tree: Tree::Leaf(leaf),
                totals,
            }),
            Err(fault) => Err(fault),
        };
    }
    let half = count / 2;
    let left = match grow(alloc, sources, from, half) {
        Ok(left) => left,
        Err(fault) => return Err(fault),
    };
    let right = match grow(alloc, sources, from + half, count - half) {
        Ok(right) => right,
        Err(fault) => return Err(fault),
    };
    pair(alloc, left, right)
}
