//! A law of hits, the contract of a function that does nothing.
ghost use Rattle.std.specs.Prelude.{◌≡◌, ℕ, true, List};
ghost use Rattle.sgf_core.specs.Tree.{GameTree};
ghost use Rattle.sgf_core.specs.Next.{HasNoTree};
ghost use Rattle.shape_core.specs.Field.{Includes};
ghost use Rattle.shape_core.specs.Word.{kind_of};
ghost use Rattle.shape_core.specs.declared.words.Kinds.{Kinds};
ghost use Rattle.shape_dict.specs.Contents.{entry_of};
ghost use Rattle.game_core.specs.Collection.{AreTrees};
ghost use Rattle.tally_core.specs.Counted.{IsCounted};
ghost use Rattle.tally_core.specs.declared.collections.Counted.{Counted};
ghost use Rattle.hits_core.specs.Agreement.{times_hit, times_counted};
ghost use Rattle.hits_core.specs.Hits.{AreGames, AreHits};
ghost use Rattle.hits_core.specs.Wanted.{is_wanted};
ghost use Rattle.hits_core.specs.declared.games.Game.{Game as Kept};
ghost use Rattle.hits_core.specs.declared.hits.Hit.{Hit as Found};
ghost use Rattle.hits_core.specs.declared.searches.Sought.{Sought as What};

use go_record::replays_have_one_result;
use shape_core::kinds_stay;

/// States in its contract that hits agree with counts; a call does nothing. The trees whose games
/// have the hits are those that `shapes count` counts. Each word that is looked for has as many
/// hits as the dictionary of the same input says that its pattern was played, or was there. If that
/// dictionary has squares alone, nothing is stated for diamonds.
pub fn hits_agree_with_counts()
    ensures trees { (input : List ℕ) (number place end : ℕ) (trees : List GameTree)
        (games : List Kept) → AreGames input number place trees end games
        → AreTrees input place trees end }
    ensures counts { (what : What) (words : List ℕ) (kinds : Kinds) (input : List ℕ) (end : ℕ)
        (trees : List GameTree) (games : List Kept) (hits : List Found) (counted : Counted)
        → AreGames input 0 0 trees end games → HasNoTree input end
        → AreHits what words games hits → IsCounted kinds input counted
        → (word : ℕ) → is_wanted words word ≡ true → Includes kinds (kind_of word)
        → times_hit word hits ≡ times_counted what (entry_of word counted.dictionary.entries) }
{
    // These laws are called for the proof alone.
    kinds_stay();
    replays_have_one_result();
}
