//! A law of shares, for proofs in the crates above. It is a function that does nothing, and its
//! contract is the law.
ghost use Rattle.std.specs.Prelude.{◌≡◌, ℕ, List, Some, Contains, slice_get};
ghost use Rattle.shape_core.specs.declared.words.Kinds.{Kinds};
ghost use Rattle.shape_dict.specs.Contents.{Contents};
ghost use Rattle.tally_core.specs.Games.{IsDictionaryOf};
ghost use Rattle.gather_core.specs.Shares.{Held, Added, replayed_of};
ghost use Rattle.gather_core.specs.Gathering.{HaveGames, IsGathered, all_added, replayed_games};

/// States, for proofs, that the dictionary of shares (a share is what one worker has counted) is
/// that of their games, in the order of the games' numbers. Each game of a share is the game at the
/// index of its number. It does nothing at run time.
pub fn dictionary_of_shares()
    ensures dictionary { (kinds : Kinds) → (games : ℕ)
        → (addeds : List (List Added)) → (shares : List Held) → HaveGames kinds games addeds shares
        → (contents : Contents) → IsGathered kinds games shares contents
        → IsDictionaryOf kinds (replayed_games (all_added addeds) games) contents }
    ensures found { (kinds : Kinds) → (games : ℕ)
        → (addeds : List (List Added)) → (shares : List Held) → HaveGames kinds games addeds shares
        → (added : List Added) → (one : Added) → Contains addeds added → Contains added one
        → slice_get (replayed_games (all_added addeds) games) one.game ≡ Some (replayed_of one) }
{}
