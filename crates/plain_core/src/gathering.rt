//! Makes a dictionary of the patterns that were counted.
ghost use Rattle.std.specs.Prelude.{◌≡◌, ℕ, Option, List, All, map, length};
ghost use Rattle.std.specs.List.Sorted.{IsStrictlyIncreasing};
ghost use Rattle.tally_core.specs.Counts.{Replayed};
ghost use Rattle.plain_core.specs.Inner.Count.{Count};
ghost use Rattle.plain_core.specs.Inner.Counter.{CountsGames};
ghost use Rattle.tally_core.specs.Games.{IsDictionaryOf};
ghost use Rattle.range_core.specs.Entries.{IsShape};
ghost use Rattle.plain_core.specs.Inner.Entries.{AreEntered};

use shape_core::{Kinds, kinds_stay};
use shape_dict::{Dictionary, Entry};
use tally_core::has_diamonds;

/// Makes the dictionary of this many `games` with this many `moves` onto empty points. `entries`
/// are those of the patterns, in ascending order of their words, and `kinds` says whether diamonds
/// were counted. It takes no memory.
pub(crate) fn dictionary_of(kinds: Kinds, games: u64, moves: u64, entries: Vec<Entry>) -> Dictionary
    requires counted { (counts : ℕ → Option Count) × AreEntered counts entries.items
        × ((replayed : List Replayed) × (length replayed ≡ games)
        × CountsGames kinds replayed counts moves) }
    requires shapes { All IsShape entries.items }
    requires rises { IsStrictlyIncreasing (map (λ entry. entry.shape) entries.items) }
    ensures counted { (counts : ℕ → Option Count) → AreEntered counts entries.items
        → (replayed : List Replayed) → length replayed ≡ games
        → CountsGames kinds replayed counts moves → IsDictionaryOf kinds replayed result }
    ensures entries { result.entries ≡ entries.items }
{
    // For the proof: a canonical word is of the kind (square or diamond) of the word it is made of.
    kinds_stay();
    Dictionary::new(games, moves, entries, has_diamonds(kinds))
}
