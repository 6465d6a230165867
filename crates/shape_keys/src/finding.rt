//! The entry of a shape, which is a canonical word, among entries whose shapes rise.
ghost use Rattle.std.specs.Prelude.{◌≡◌, map};
ghost use Rattle.std.specs.Option.{option_map};
ghost use Rattle.std.specs.List.Sorted.{IsStrictlyIncreasing};
ghost use Rattle.shape_dict.specs.Contents.{Contents, IsDictionary, entry_of};
ghost use Rattle.shape_keys.specs.Entries.{said, shapes_in, entry_in};
ghost use Rattle.shape_keys.specs.Found.{IsFoundAs, IsSomeAnswer};

use crate::entries::ShapesEntry;
use crate::statuses::Status;

/// Writes to `entry` the one of `entries` whose word is `shape`. It is found by binary search: the
/// words of `entries` must rise, as they do where `shapes_read` writes them. Takes no memory.
///
/// Returns `Done` and writes the entry, or `Absent` if none has the word `shape`; `entry` stays as
/// it was then. If the words of `entries` do not rise, an entry that has `shape` may be missed; one
/// that is found has it all the same.
#[unsafe(no_mangle)]
pub extern "C" fn shapes_find(entries: &[ShapesEntry], shape: u64, entry: &mut ShapesEntry) -> u32
    ensures dictionary { (contents : Contents) → IsDictionary contents
        → entries.now ≡ map said contents.entries
        → IsFoundAs (option_map said (entry_of shape contents.entries)) result entry.old entry.new }
    ensures rises { IsStrictlyIncreasing (shapes_in entries.now)
        → IsFoundAs (entry_in shape entries.now) result entry.old entry.new }
    ensures some { IsSomeAnswer shape entries.now result entry.old entry.new }
{
    match entries.binary_search_by_key(&shape, |entry| entry.shape) {
        Ok(place) => {
            *entry = entries[place];
            Status::Done.number()
        }
        Err(_) => Status::Absent.number(),
    }
}
