//! Laws of texts that are joined into one input, each the contract of a function that does nothing.
ghost use Rattle.std.specs.Prelude.{◌≡◌, ℕ, List, ◌++◌, map};
ghost use Rattle.sgf_core.specs.Tree.{GameTree};
ghost use Rattle.go_record.specs.Actions.{Actions};
ghost use Rattle.game_core.specs.Collection.{record_of_tree, games_among};
ghost use Rattle.batch_core.specs.Batch.{joined, AreAllTrees, AreGamesOf};

/// States, for proofs, that the games of texts that are joined into one input are those of the
/// texts, one after another. By the grammar the input can be read to its end if each of the texts
/// can. The reader's limit of 2^28 bytes is left out. It does nothing at run time.
pub fn games_of_joined()
    ensures apart { (texts : List (List ℕ)) (games : List Actions) (trees : List GameTree)
        → AreGamesOf texts games → AreAllTrees (joined texts) trees
        → games_among (map record_of_tree trees) ≡ games }
    ensures together { (texts : List (List ℕ)) (games : List Actions) → AreGamesOf texts games
        → (trees : List GameTree) × AreAllTrees (joined texts) trees
        × (games_among (map record_of_tree trees) ≡ games) }
{}

/// States, for proofs, that a list of texts has one list of games, and that the games of two lists
/// of texts, one after the other, are those of the first list and then those of the second. It does
/// nothing at run time.
pub fn games_come_together()
    ensures one { (texts : List (List ℕ)) (games others : List Actions)
        → AreGamesOf texts games → AreGamesOf texts others → games ≡ others }
    ensures both { (texts others : List (List ℕ)) (games more : List Actions)
        → AreGamesOf texts games → AreGamesOf others more
        → AreGamesOf (texts ++ others) (games ++ more) }
{}
