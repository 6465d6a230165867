//! Chooses the first patterns of a dictionary in the order that is asked for.
ghost use Rattle.std.specs.Prelude.{◌≡◌, IfOk};
ghost use Rattle.std.specs.List.{filter};
ghost use Rattle.std.specs.List.Sorted.{IsPermutation, IsSortedBy};
ghost use Rattle.sheet_core.specs.Inner.Orders.{goes_before};
ghost use Rattle.sheet_core.specs.Choice.{IsChoice};
ghost use Rattle.sheet_core.specs.Inner.Choice.{qualifies};

use crate::orders::{Order, compare};
use shape_core::Kind;
use shape_dict::{Dictionary, Entry};
use std::alloc::{AllocError, Global};

/// Whether a pattern is of this `kind` and was there at least `least` times.
fn qualifies(kind: Kind, least: u64, entry: &Entry) -> bool
    ensures { result ≡ qualifies kind least entry.now }
{
    entry.shape.word().kind() == kind && least <= entry.there
}

/// Returns the patterns of this `kind` that were there at least `least` times, in the order of
/// `entries`.
fn qualified(
    alloc: Global,
    kind: Kind,
    least: u64,
    entries: &[Entry],
) -> Result<Vec<Entry>, AllocError>
    ensures { IfOk result (λ found. found.items ≡ filter (qualifies kind least) entries.now) }
{
    let mut found = Vec::new(alloc);
    for entry in entries {
        if qualifies(kind, least, entry) {
            found.push(*entry)?;
        }
    }
    Ok(found)
}

/// Sorts `entries` so that those stand first that `order` puts first. Takes no memory.
fn sort(order: Order, entries: &mut Vec<Entry>)
    ensures same { IsPermutation entries.old.items entries.new.items }
    ensures sorted { IsSortedBy (goes_before order) entries.new.items }
{
    entries.sort_unstable_by(|left, right| compare(order, left, right));
}

/// Returns the first patterns of `dictionary` in `order`, at most `most` of them: only those of
/// this `kind` that were there at least `least` times. It takes memory for all such patterns, also
/// for those after the first `most`.
///
/// # Errors
///
/// `AllocError` if memory was refused.
pub fn choose(
    alloc: Global,
    order: Order,
    kind: Kind,
    least: u64,
    most: usize,
    dictionary: &Dictionary,
) -> Result<Vec<Entry>, AllocError>
    ensures { IfOk result (λ chosen. IsChoice order kind least most dictionary.now.entries
        chosen.items) }
{
    let mut chosen = qualified(alloc, kind, least, dictionary.entries())?;
    sort(order, &mut chosen);
    chosen.truncate(most);
    Ok(chosen)
}
