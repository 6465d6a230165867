//! Laws of games that are counted, each the contract of a function that does nothing.
ghost use Rattle.std.specs.Prelude.{◌≡◌, ℕ, List, ◌++◌};
ghost use Rattle.shape_core.specs.declared.words.Kinds.{Kinds};
ghost use Rattle.shape_dict.specs.Contents.{Contents};
ghost use Rattle.shape_dict.specs.Join.{IsJoin};
ghost use Rattle.tally_core.specs.Beyond.{IsFirstBeyond, HasAtMost};
ghost use Rattle.tally_core.specs.Counted.{HasMore};
ghost use Rattle.tally_core.specs.Counts.{Replayed};
ghost use Rattle.tally_core.specs.Games.{IsDictionaryOf};

use go_record::replays_have_one_result;
use shape_core::kinds_stay;

/// States for proofs that dictionaries may be joined (merged). The dictionary of two lists of
/// games, one after the other, is the join of the dictionaries of each, and that join is the
/// dictionary of both lists. A call does nothing.
pub fn dictionaries_join()
    ensures join { (kinds : Kinds) → (left : List Replayed) → (right : List Replayed)
        → (of_left : Contents) → (of_right : Contents) → (both : Contents)
        → IsDictionaryOf kinds left of_left → IsDictionaryOf kinds right of_right
        → IsDictionaryOf kinds (left ++ right) both → IsJoin of_left of_right both }
    ensures dictionary { (kinds : Kinds) → (left : List Replayed) → (right : List Replayed)
        → (of_left : Contents) → (of_right : Contents) → (both : Contents)
        → IsDictionaryOf kinds left of_left → IsDictionaryOf kinds right of_right
        → IsJoin of_left of_right both → IsDictionaryOf kinds (left ++ right) both }
{
    // For the proof: a canonical word is of the kind (square or diamond) of the word it is made of.
    kinds_stay();
}

/// States for proofs that at most one pattern is the first to bring a collection to more than
/// `most` patterns, and that one game is the first that has it. This holds however many of the
/// collection's first trees are looked at. If all its games together have at most `most` patterns,
/// there is no such pattern, and no first part of its games has more. A call does nothing.
pub fn one_first_beyond()
    ensures one { (kinds : Kinds) → (bytes : List ℕ) → (most game word other second : ℕ)
        → IsFirstBeyond kinds bytes most game word → IsFirstBeyond kinds bytes most other second
        → (game ≡ other) × (word ≡ second) }
    ensures none { (kinds : Kinds) → (bytes : List ℕ) → (most game word : ℕ)
        → HasAtMost kinds bytes most → IsFirstBeyond kinds bytes most game word → ⊥ }
    ensures few { (kinds : Kinds) → (bytes : List ℕ) → (most : ℕ)
        → HasAtMost kinds bytes most → HasMore kinds bytes most → ⊥ }
{
    // For the proof: two replays of a game have the same positions on the board.
    replays_have_one_result();
}
