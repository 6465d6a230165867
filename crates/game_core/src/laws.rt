//! A law of jobs, for proofs in crates that use this one. It is a function that does nothing, and
//! its contract is the law.
ghost use Rattle.std.specs.Prelude.{◌≡◌, ℕ, ◌<◌, List, Some, length, map, slice_get};
ghost use Rattle.sgf_core.specs.Tree.{GameTree};
ghost use Rattle.sgf_core.specs.Next.{HasNoTree};
ghost use Rattle.go_record.specs.Actions.{Actions};
ghost use Rattle.game_core.specs.Collection.{AreTrees, record_of_tree, games_among};
ghost use Rattle.game_core.specs.Games.{IsGameOf};

/// States for proofs that an input has one list of trees, so that the record of a job is that of
/// the game of the job's number: among all trees, and among the first trees alone if these have a
/// game of that number.
pub fn a_number_is_of_one_game()
    ensures all { (bytes : List ℕ) (trees : List GameTree) (end game at stop : ℕ)
        → (actions : Actions)
        → AreTrees bytes 0 trees end → HasNoTree bytes end → IsGameOf bytes game at stop actions
        → slice_get (games_among (map record_of_tree trees)) game ≡ Some actions }
    ensures first { (bytes : List ℕ) (trees : List GameTree) (end game at stop : ℕ)
        → (actions : Actions)
        → AreTrees bytes 0 trees end → game < length (games_among (map record_of_tree trees))
        → IsGameOf bytes game at stop actions
        → slice_get (games_among (map record_of_tree trees)) game ≡ Some actions }
{}
