//! Heads: the next entries of two lists that are joined.
ghost use Rattle.std.specs.Prelude.{◌≡◌, ◌<◌, ◌≤◌, ◌+◌, ◌^◌, ◌⊎◌, IfOk, IfErr, Some};
ghost use Rattle.shape_dict.specs.Merging.{moved_entry, summed_entry};
ghost use Rattle.merge_core.specs.Inner.Trees.{IsFirst};
ghost use Rattle.merge_core.specs.declared.entries.NextFault.TheVariants as fault;

use crate::entries::NextFault;
use shape_dict::Entry;

/// The next entries of two lists, if there are any, and how many games the left list has.
#[derive(Clone, Copy)]
pub(crate) struct Heads {
    pub(crate) games: u64,
    pub(crate) left: Option<Entry>,
    pub(crate) right: Option<Entry>,
}

/// The next entries of two lists that have the least word: one list's entry, both if their words
/// are equal, or neither if both lists are at their ends.
#[derive(Clone, Copy)]
pub(crate) enum First {
    Neither,
    Left(Entry),
    Right(Entry),
    Both(Entry, Entry),
}

impl Heads {
    /// Returns the entry with the lesser word, or both entries if their words are equal, or neither
    /// if both lists are at their ends.
    #[inline(always)]
    pub(crate) fn first(&self) -> First
        ensures { IsFirst self.now result }
    {
        match (self.left, self.right) {
            (None, None) => First::Neither,
            (Some(mine), None) => First::Left(mine),
            (None, Some(other)) => First::Right(other),
            (Some(mine), Some(other)) => {
                let word = mine.shape.word().bits();
                let other_word = other.shape.word().bits();
                if word < other_word {
                    First::Left(mine)
                } else if other_word < word {
                    First::Right(other)
                } else {
                    First::Both(mine, other)
                }
            }
        }
    }
}

/// Returns `entry`, which the right list alone has, with `games`, how many games the left list is
/// of, added to its first game. The result is always Some. The numbers of games add up to less than
/// 2^64 in dictionaries that were checked before, so a sum that is too large means that a
/// dictionary has changed: `Changed`.
#[inline(always)]
pub(crate) fn moved(entry: Entry, games: u64) -> Result<Option<Entry>, NextFault>
    ensures ok { IfOk result (λ moved. moved ≡ Some (moved_entry games entry)) }
    ensures err { IfErr result (λ found. found ≡ fault.Changed) }
{
    let moved = entry.moved(games).ok_or(NextFault::Changed)?;
    Ok(Some(moved))
}

/// Returns the sum of two entries of the same pattern, with the first game of `left`. The result is
/// always Some. `Overflow` if a count would pass 2^64 - 1.
#[inline(always)]
pub(crate) fn summed(left: Entry, right: Entry) -> Result<Option<Entry>, NextFault>
    ensures ok { IfOk result (λ both. both ≡ Some (summed_entry left right)) }
    ensures err { IfErr result (λ found. (found ≡ fault.Overflow)
        × ((2 ^ 64 ≤ left.there + right.there) ⊎ (2 ^ 64 ≤ left.played + right.played))) }
{
    let both = left.with(right).ok_or(NextFault::Overflow)?;
    Ok(Some(both))
}
