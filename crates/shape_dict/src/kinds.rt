//! The patterns of one kind, among all of a dictionary.
ghost use Rattle.std.specs.Prelude.{◌≡◌, ◌<◌, ◌^◌, length, SomeIff};
ghost use Rattle.shape_dict.specs.Contents.{is_of, of_kind, played_in};

use crate::entries::Entry;
use shape_core::Kind;

/// Whether a pattern is of the kind.
pub(crate) fn is_of(kind: Kind, entry: &Entry) -> bool
    ensures { result ≡ is_of kind entry.now }
{
    entry.shape.word().kind() == kind
}

/// How many patterns of the kind there are.
pub(crate) fn count_of(kind: Kind, entries: &[Entry]) -> u64
    ensures { result ≡ length (of_kind kind entries.now) }
{
    let mut count = 0;
    for entry in entries {
        if is_of(kind, entry) {
            count += 1;
        }
    }
    count
}

/// How often the patterns of the kind were played in all, or None if that is over 2^64 - 1.
pub(crate) fn played_in(kind: Kind, entries: &[Entry]) -> Option<u64>
    ensures { SomeIff result (played_in (of_kind kind entries.now) < 2 ^ 64)
        (played_in (of_kind kind entries.now)) }
{
    let mut played: u64 = 0;
    for entry in entries {
        if is_of(kind, entry) {
            played = played.checked_add(entry.played)?;
        }
    }
    Some(played)
}
