//! Tallies: how many patterns there are, and how often they were played.
ghost use Rattle.std.specs.Prelude.{◌≡◌, ◌+◌, ◌++◌, ◌∷◌, [], ℕ, IfOk, IfSome, List, Option, length};
ghost use Rattle.shape_dict.specs.declared.entries.Entry.{Entry as One};
ghost use Rattle.merge_core.specs.Inner.Ranges.{IsCountOf, IsTally};
ghost use Rattle.merge_core.specs.Inner.Tallies.{IsSum, sums};

use crate::entries::NextFault;
use crate::forms::{is_kept, is_square};
use shape_dict::Entry;
use std::alloc::Global;

/// How many different squares and how many different diamonds some entries have, and how often
/// squares were played in all, and diamonds in all.
#[derive(Clone, Copy, PartialEq, Eq)]
pub(crate) struct Tally {
    pub(crate) squares: u64,
    pub(crate) diamonds: u64,
    pub(crate) squares_played: u64,
    pub(crate) diamonds_played: u64,
}

/// Returns the tally of no entries.
pub(crate) fn no_tally() -> Tally
    ensures { (least : Option ℕ) → IsCountOf least [] result }
{
    Tally {
        squares: 0,
        diamonds: 0,
        squares_played: 0,
        diamonds_played: 0,
    }
}

/// Returns the tally with one more entry, or None if a sum is over 2^64 - 1.
#[inline(always)]
fn with(tally: Tally, entry: Entry) -> Option<Tally>
    ensures { IfSome result (λ next. (before : List One) → IsTally before tally
        → IsTally (before ++ entry ∷ []) next) }
{
    if is_square(entry) {
        return Some(Tally {
            squares: tally.squares.checked_add(1)?,
            squares_played: tally.squares_played.checked_add(entry.played)?,
            ..tally
        });
    }
    Some(Tally {
        diamonds: tally.diamonds.checked_add(1)?,
        diamonds_played: tally.diamonds_played.checked_add(entry.played)?,
        ..tally
    })
}

/// Returns the tally of `entries`; None if a sum is over 2^64 - 1.
pub(crate) fn tally_of(entries: &[Entry]) -> Option<Tally>
    ensures { IfSome result (IsTally entries.now) }
{
    let mut tally = Tally {
        squares: 0,
        diamonds: 0,
        squares_played: 0,
        diamonds_played: 0,
    };
    for entry in entries {
        tally = match with(tally, *entry) {
            Some(next) => next,
            None => return None,
        };
    }
    Some(tally)
}

/// Returns the tally with one more entry if the join keeps that, else the tally unchanged. It keeps
/// an entry always if `least` is None, else if it is a square that was there at least `least`
/// times. None if a sum is over 2^64 - 1.
pub(crate) fn with_kept(least: Option<u64>, tally: Tally, entry: &Entry) -> Option<Tally>
    ensures { IfSome result (λ next. (before : List One) → IsCountOf least before tally
        → IsCountOf least (before ++ entry.now ∷ []) next) }
{
    if is_kept(least, entry) {
        with(tally, *entry)
    } else {
        Some(tally)
    }
}

/// Returns the tally of all entries if `least` is None, else of the squares alone that were there
/// at least `least` times. None if a sum is over 2^64 - 1.
pub(crate) fn count_of(least: Option<u64>, entries: &[Entry]) -> Option<Tally>
    ensures { IfSome result (IsCountOf least entries.now) }
{
    let mut tally = no_tally();
    for entry in entries {
        tally = match with_kept(least, tally, entry) {
            Some(next) => next,
            None => return None,
        };
    }
    Some(tally)
}

/// Returns the sum of two tallies, or None if a sum is over 2^64 - 1.
pub(crate) fn both_tallies(left: Tally, right: Tally) -> Option<Tally>
    ensures { IfSome result (IsSum left right) }
{
    Some(Tally {
        squares: left.squares.checked_add(right.squares)?,
        diamonds: left.diamonds.checked_add(right.diamonds)?,
        squares_played: left.squares_played.checked_add(right.squares_played)?,
        diamonds_played: left.diamonds_played.checked_add(right.diamonds_played)?,
    })
}

/// Adds up two lists of tallies, element by element, into a new list.
///
/// # Errors
///
/// `Memory` if memory was refused, `Overflow` if a sum is over 2^64 - 1, and `Changed` if the lists
/// have different lengths.
pub(crate) fn each_tally(
    alloc: Global,
    left: &[Tally],
    right: &[Tally],
) -> Result<Vec<Tally>, NextFault>
    ensures len { IfOk result (λ both. length left.now ≡ length right.now) }
    ensures sums { IfOk result (λ both. both.items ≡ sums left.now right.now) }
{
    if left.len() != right.len() {
        return Err(NextFault::Changed);
    }
    let mut both = Vec::new(alloc);
    for place in 0..left.len() {
        let Some(sum) = both_tallies(left[place], right[place]) else {
            return Err(NextFault::Overflow);
        };
        match both.push(sum) {
            Ok(()) => {}
            Err(_) => return Err(NextFault::Memory),
        }
    }
    Ok(both)
}
