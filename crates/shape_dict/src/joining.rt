//! Joins two lists of entries whose words rise.
ghost use Rattle.std.specs.Prelude.{◌≡◌, ◌++◌, ◌∷◌, [], ◌+◌, ◌^◌, ◌<◌, ◌≤◌, ◌⊎◌, All, map, OnOk};
ghost use Rattle.std.specs.Prelude.{IfOk, IfErr, IfSome, OnErr, length};
ghost use Rattle.std.specs.List.Sorted.{IsStrictlyIncreasing};
ghost use Rattle.shape_dict.specs.Merging.{moved_entry, summed_entry};
ghost use Rattle.shape_dict.specs.Inner.Merging.{merged};
ghost use Rattle.shape_dict.specs.Join.{HasLargeEntry};
ghost use Rattle.shape_dict.specs.declared.faults.DictFault.TheVariants as fault;

use crate::entries::Entry;
use crate::faults::DictFault;
use std::alloc::{AllocError, Global};

/// Returns the sum of two numbers, or `DictFault::Overflow` if it is over 2^64 - 1.
pub(crate) fn sum_of(left: u64, right: u64) -> Result<u64, DictFault>
    ensures ok { IfOk result (λ sum. (sum ≡ left + right) × (left + right < 2 ^ 64)) }
    ensures err { IfErr result (λ found. (found ≡ fault.Overflow) × (2 ^ 64 ≤ left + right)) }
{
    left.checked_add(right).ok_or(DictFault::Overflow)
}

/// Returns the joined entry of a pattern that the right dictionary alone has: `games`, the number
/// of the left one's games, is added to its first game.
fn moved(entry: Entry, games: u64) -> Entry
    requires { IfSome entry.first (λ game. game + games + 1 < 2 ^ 64) }
    ensures { result ≡ moved_entry games entry }
{
    entry.moved(games).unwrap()
}

/// Returns the joined entry of a pattern that both dictionaries have: the counts are sums, and the
/// first game is that of `left`. `Overflow` if a sum is over 2^64 - 1.
fn summed(left: Entry, right: Entry) -> Result<Entry, DictFault>
    requires left { left.played ≤ left.there }
    requires right { right.played ≤ right.there }
    ensures ok { IfOk result (λ both. both ≡ summed_entry left right) }
    ensures err { IfErr result (λ found. (found ≡ fault.Overflow)
        × (2 ^ 64 ≤ left.there + right.there)) }
{
    left.with(right).ok_or(DictFault::Overflow)
}

/// Appends `entry` to `entries`. For proofs, its count `there` is below 2^64.
pub(crate) fn push(entries: &mut Vec<Entry>, entry: Entry) -> Result<(), AllocError>
    ensures ok { OnOk result (entries.new.items ≡ entries.old.items ++ entry ∷ []) }
    ensures small { entry.there < 2 ^ 64 }
{
    entries.push(entry)?;
    Ok(())
}

/// Appends the entries of `left` to `entries`, unchanged.
fn push_kept(entries: &mut Vec<Entry>, left: &[Entry]) -> Result<(), AllocError>
    requires { All (λ entry. entry.there < 2 ^ 64) entries.old.items }
    ensures ok { OnOk result (entries.new.items ≡ entries.old.items ++ left.now) }
    ensures err { OnErr result (0 < length left.now) }
    ensures small { OnOk result (All (λ entry. entry.there < 2 ^ 64) entries.new.items) }
{
    for entry in left {
        push(entries, *entry)?;
    }
    Ok(())
}

/// Appends to `entries` those of `right`, which the right dictionary alone has, with `games`, the
/// number of the left one's games, added to their first games.
fn push_moved(entries: &mut Vec<Entry>, right: &[Entry], games: u64) -> Result<(), AllocError>
    requires small { All (λ entry. entry.there < 2 ^ 64) entries.old.items }
    requires first { All (λ entry. IfSome entry.first (λ game. game + games + 1 < 2 ^ 64)) right.now }
    ensures ok { OnOk result (entries.new.items
        ≡ entries.old.items ++ map (moved_entry games) right.now) }
    ensures err { OnErr result (0 < length right.now) }
    ensures small { OnOk result (All (λ entry. entry.there < 2 ^ 64) entries.new.items) }
{
    for entry in right {
        push(entries, moved(*entry, games))?;
    }
    Ok(())
}

/// Merges two dictionaries' entries by their words into a new list, and adds the counts of patterns
/// that both have. `games` is how many games the left dictionary has.
///
/// `DictFault::Overflow` if a pattern's counts add up to more than 2^64 - 1; `DictFault::Memory` if
/// memory was refused.
pub(crate) fn merge(
    alloc: Global,
    games: u64,
    left: &[Entry],
    right: &[Entry],
) -> Result<Vec<Entry>, DictFault>
    requires left_rises { IsStrictlyIncreasing (map (λ entry. entry.shape) left.now) }
    requires right_rises { IsStrictlyIncreasing (map (λ entry. entry.shape) right.now) }
    requires left_played { All (λ entry. entry.played ≤ entry.there) left.now }
    requires right_played { All (λ entry. entry.played ≤ entry.there) right.now }
    requires right_first { All (λ entry. IfSome entry.first (λ game. game + games + 1 < 2 ^ 64))
        right.now }
    ensures ok { IfOk result (λ both. both.items ≡ merged games left.now right.now) }
    ensures small { IfOk result (λ both. All (λ entry. entry.there < 2 ^ 64) both.items) }
    ensures err { IfErr result (λ found.
        (found ≡ fault.Memory) × (0 < length left.now + length right.now)
        ⊎ (found ≡ fault.Overflow) × HasLargeEntry left.now right.now) }
{
    let mut both = Vec::new(alloc);
    let mut of_left = 0;
    let mut of_right = 0;
    while of_left < left.len() && of_right < right.len() {
        let mine = left[of_left];
        let other = right[of_right];
        if mine.shape.word().bits() < other.shape.word().bits() {
            push(&mut both, mine)?;
            of_left += 1;
        } else if other.shape.word().bits() < mine.shape.word().bits() {
            push(&mut both, moved(other, games))?;
            of_right += 1;
        } else {
            push(&mut both, summed(mine, other)?)?;
            of_left += 1;
            of_right += 1;
        }
    }
    push_kept(&mut both, &left[of_left..])?;
    push_moved(&mut both, &right[of_right..], games)?;
    Ok(both)
}
