//! Joins several lists of entries by a tree of joins of two.
ghost use Rattle.std.specs.Prelude.{List, MatchResult, IfOk, OnOk};
ghost use Rattle.shape_dict.specs.declared.entries.Entry.{Entry as One};
ghost use Rattle.merge_core.specs.Entries.{IsNext, IsNextFault, WasNext};
ghost use Rattle.merge_core.specs.Inner.Trees.{Yields};

use crate::entries::{Entries, NextFault};
use crate::heads::{First, Heads, moved, summed};
use shape_dict::Entry;
use std::alloc::Global;

/// One list of entries, or the join of the two lists that the trees `left` and `right` give.
/// `heads` has the entry of each that comes next.
#[derive(Drop)]
pub(crate) enum Tree<E> {
    Leaf(E),
    Node {
        left: Box<Tree<E>>,
        right: Box<Tree<E>>,
        heads: Heads,
    },
}

/// Puts the next entry of the join that `tree` makes into `next`, or None at the end. The entry is
/// not the result, since in a tree of many levels it would then be copied several times at each
/// level.
#[tactic(auto, using(crate::proofs::Unmerged::left_fault, crate::proofs::Unmerged::right_fault, crate::proofs::Unmerged::both_fault))]
fn advance<E: Entries>(tree: &mut Tree<E>, next: &mut Option<Entry>) -> Result<(), NextFault>
    ensures next { (entries : List One) → Yields E.yields tree.old entries → MatchResult result
        (λ _. IsNext (Yields E.yields tree.new) entries next.new) (IsNextFault entries) }
    ensures came { OnOk result
        (WasNext (Yields E.came tree.old) (Yields E.came tree.new) next.new) }
{
    match tree {
        Tree::Leaf(leaf) => {
            *next = match leaf.next_entry() {
                Ok(found) => found,
                Err(fault) => return Err(fault),
            };
            Ok(())
        }
        Tree::Node { left, right, heads } => match heads.first() {
            First::Neither => {
                *next = None;
                Ok(())
            }
            First::Left(entry) => {
                match advance(left, &mut heads.left) {
                    Ok(()) => {}
                    Err(fault) => return Err(fault),
                }
                *next = Some(entry);
                Ok(())
            }
            First::Right(entry) => {
                match advance(right, &mut heads.right) {
                    Ok(()) => {}
                    Err(fault) => return Err(fault),
                }
                *next = match moved(entry, heads.games) {
                    Ok(entry) => entry,
                    Err(fault) => return Err(fault),
                };
                Ok(())
            }
            First::Both(mine, other) => {
                match advance(left, &mut heads.left) {
                    Ok(()) => {}
                    Err(fault) => return Err(fault),
                }
                match advance(right, &mut heads.right) {
                    Ok(()) => {}
                    Err(fault) => return Err(fault),
                }
                *next = match summed(mine, other) {
                    Ok(entry) => entry,
                    Err(fault) => return Err(fault),
                };
                Ok(())
            }
        },
    }
}

/// Returns the next entry of the join that `tree` makes, or None at the end. After an error a
/// further call may return anything.
#[inline(always)]
pub(crate) fn next_of<E: Entries>(tree: &mut Tree<E>) -> Result<Option<Entry>, NextFault>
    ensures next { (entries : List One) → Yields E.yields tree.old entries
        → MatchResult result (IsNext (Yields E.yields tree.new) entries) (IsNextFault entries) }
    ensures came { IfOk result (WasNext (Yields E.came tree.old) (Yields E.came tree.new)) }
{
    let mut next = None;
    match advance(tree, &mut next) {
        Ok(()) => Ok(next),
        Err(fault) => Err(fault),
    }
}
