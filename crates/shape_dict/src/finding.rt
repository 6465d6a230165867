//! Finds the entry of a pattern, among entries whose words rise.
ghost use Rattle.std.specs.Prelude.{◌≡◌, map};
ghost use Rattle.std.specs.List.Sorted.{IsStrictlyIncreasing};
ghost use Rattle.shape_dict.specs.Contents.{entry_of};

use crate::entries::Entry;
use shape_core::Shape;

/// Returns the entry of the pattern `shape` among `entries`, or None if it is not there.
pub(crate) fn find_entry(entries: &[Entry], shape: Shape) -> Option<Entry>
    requires { IsStrictlyIncreasing (map (λ entry. entry.shape) entries.now) }
    ensures { result ≡ entry_of shape entries.now }
{
    let word = shape.word().bits();
    match entries.binary_search_by_key(&word, |entry| entry.shape.word().bits()) {
        Ok(place) => Some(entries[place]),
        Err(_) => None,
    }
}
