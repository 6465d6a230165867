//! Joins two lists of entries in memory.
ghost use Rattle.std.specs.Prelude.{◌≡◌, ◌++◌, ◌∷◌, [], ◌+◌, map, OnOk, IfOk};
ghost use Rattle.shape_dict.specs.Merging.{moved_entry, summed_entry};
ghost use Rattle.shape_dict.specs.Inner.Merging.{merged};

use crate::entries::NextFault;
use shape_dict::Entry;
use std::alloc::Global;

/// Returns `entry`, which the right list alone has, with `games`, how many games the left list is
/// of, added to its first game. `Changed` if that would pass 2^64 - 2.
#[inline(always)]
fn moved(entry: Entry, games: u64) -> Result<Entry, NextFault>
    ensures { IfOk result (λ moved. moved ≡ moved_entry games entry) }
{
    entry.moved(games).ok_or(NextFault::Changed)
}

/// Returns the sum of two entries of the same pattern, with the first game of `left`. `Overflow` if
/// a count would pass 2^64 - 1.
#[inline(always)]
fn summed(left: Entry, right: Entry) -> Result<Entry, NextFault>
    ensures { IfOk result (λ both. both ≡ summed_entry left right) }
{
    left.with(right).ok_or(NextFault::Overflow)
}

/// Appends `entry` to `entries`. `Memory` if memory was refused.
#[inline(always)]
fn push(entries: &mut Vec<Entry>, entry: Entry) -> Result<(), NextFault>
    ensures ok { OnOk result (entries.new.items ≡ entries.old.items ++ entry ∷ []) }
{
    match entries.push(entry) {
        Ok(()) => Ok(()),
        Err(_) => Err(NextFault::Memory),
    }
}

/// Appends the entries of `left` to `entries`, as they are. `Memory` if memory was refused.
fn push_kept(entries: &mut Vec<Entry>, left: &[Entry]) -> Result<(), NextFault>
    ensures ok { OnOk result (entries.new.items ≡ entries.old.items ++ left.now) }
{
    for entry in left {
        push(entries, *entry)?;
    }
    Ok(())
}

/// Appends the entries of `right` to `entries`, with `games`, how many games the left list is of,
/// added to their first games. `Changed` if that would pass 2^64 - 2, `Memory` if memory was
/// refused.
fn push_moved(entries: &mut Vec<Entry>, right: &[Entry], games: u64) -> Result<(), NextFault>
    ensures ok { OnOk result (entries.new.items
        ≡ entries.old.items ++ map (moved_entry games) right.now) }
{
    for entry in right {
        push(entries, moved(*entry, games)?)?;
    }
    Ok(())
}

/// Merges two lists of entries whose words rise into a new one, and adds the counts of patterns
/// that both have. `games` is how many games the left list is of; it is added to the first games of
/// patterns that the right list alone has.
///
/// # Errors
///
/// `Overflow` if a sum is over 2^64 - 1, `Changed` if a first game would pass 2^64 - 2, and
/// `Memory` if memory was refused.
pub(crate) fn merge(
    alloc: Global,
    games: u64,
    left: &[Entry],
    right: &[Entry],
) -> Result<Vec<Entry>, NextFault>
    ensures ok { IfOk result (λ both. both.items ≡ merged games left.now right.now) }
{
    let most = left.len().saturating_add(right.len());
    let Ok(mut both) = Vec::with_capacity(alloc, most) else {
        return Err(NextFault::Memory);
    };
    let mut of_left = 0;
    let mut of_right = 0;
    while of_left < left.len() && of_right < right.len() {
        let mine = left[of_left];
        let other = right[of_right];
        let word = mine.shape.word().bits();
        let other_word = other.shape.word().bits();
        if word < other_word {
            push(&mut both, mine)?;
            of_left += 1;
        } else if other_word < word {
            push(&mut both, moved(other, games)?)?;
            of_right += 1;
        } else {
            push(&mut both, summed(mine, other)?)?;
            of_left += 1;
            of_right += 1;
        }
    }
    push_kept(&mut both, &left[of_left..])?;
    push_moved(&mut both, &right[of_right..], games)?;
    Ok(both)
}
