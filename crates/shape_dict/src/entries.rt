//! The entries of a dictionary, and the names of its three texts.
use crate::first_games::FirstGame;
use shape_core::Shape;

/// One pattern: how often it was there, how often it was played, and the first game that had it, if
/// that is known.
#[derive(Clone, Copy, Debug, PartialEq, Eq)]
pub struct Entry {
    pub shape: Shape,
    pub there: u64,
    pub played: u64,
    pub first: FirstGame,
}

impl Entry {
    ghost use Rattle.std.specs.Prelude.{◌≡◌, ◌+◌, ◌^◌, ◌≤◌, ◌⊎◌, IfSome, IfNone, IsSomeAnd};
    ghost use Rattle.shape_dict.specs.Merging.{moved_entry, summed_entry};

    /// Returns the entry with `games` added to the number of its first game, as if that number of
    /// games came before. An unknown first game stays unknown. None if the number would pass 2^64 -
    /// 2. It takes no memory.
    #[inline(always)]
    pub fn moved(self, games: u64) -> Option<Entry>
        ensures some { IfSome result (λ moved. moved ≡ moved_entry games self) }
        ensures none { IfNone result (IsSomeAnd self.first (λ game. 2 ^ 64 ≤ game + games + 1)) }
    {
        let first = self.first.moved(games)?;
        Some(Entry { first, ..self })
    }

    /// Returns the entry with the counts of `later`, an entry of the same pattern, added to its
    /// own. The first game stays that of `self`. None if a count would pass 2^64 - 1. It takes no
    /// memory.
    #[inline(always)]
    pub fn with(self, later: Entry) -> Option<Entry>
        ensures some { IfSome result (λ both. both ≡ summed_entry self later) }
        ensures none { IfNone result ((2 ^ 64 ≤ self.there + later.there)
            ⊎ (2 ^ 64 ≤ self.played + later.played)) }
    {
        let there = self.there.checked_add(later.there)?;
        let played = self.played.checked_add(later.played)?;
        Some(Entry {
            there,
            played,
            ..self
        })
    }
}

/// The three text formats of a dictionary: 1 lists the squares, 2 lists the diamonds too, and 3
/// gives the first game of each pattern besides.
#[derive(Clone, Copy, Debug, PartialEq, Eq)]
pub enum Text {
    One,
    Two,
    Three,
}
