//! Laws of listings, the contracts of functions that do nothing.
ghost use Rattle.std.specs.Prelude.{◌≡◌, ℕ, List, Ok, sum_by};
ghost use Rattle.sgf_core.specs.Tree.{GameTree};
ghost use Rattle.sgf_core.specs.Next.{HasNoTree};
ghost use Rattle.shape_core.specs.declared.words.Kinds.{Kinds};
ghost use Rattle.go_record.specs.Actions.{Actions};
ghost use Rattle.go_record.specs.declared.records.Kind.TheVariants as kind;
ghost use Rattle.game_core.specs.Collection.{AreTrees, record_of_tree};
ghost use Rattle.tally_core.specs.Counted.{IsCounted};
ghost use Rattle.tally_core.specs.declared.collections.Counted.{Counted};
ghost use Rattle.listing_core.specs.declared.asked.Asked.{Asked};
ghost use Rattle.listing_core.specs.declared.asked.Form.TheVariants as form;
ghost use Rattle.listing_core.specs.declared.lines.Line.{Line};
ghost use Rattle.listing_core.specs.Choice.{pieces};
ghost use Rattle.listing_core.specs.Cuts.{chosen_trees, moved, tree_at, IsReadFrom};
ghost use Rattle.listing_core.specs.Listing.{AreLines};
ghost use Rattle.listing_core.specs.Agreement.{Agrees, occasions_in};

use go_record::replays_have_one_result;

/// States in its contract that listings agree with counts; a call does nothing. The trees that are
/// listed are those that `shapes count` counts. The lines are of as many games, trees of other
/// games and refused trees as its report says. Their occasions (moves onto empty points) add up to
/// the moves of its dictionary.
pub fn listings_agree_with_counts()
    ensures trees { (input : List ℕ) (number place end : ℕ) (trees : List GameTree)
        (lines : List Line) → AreLines input number place trees end lines
        → AreTrees input place trees end }
    ensures report { (kinds : Kinds) (input : List ℕ) (first end : ℕ) (trees : List GameTree)
        (lines : List Line) (counted : Counted) → AreLines input first 0 trees end lines
        → HasNoTree input end → IsCounted kinds input counted → Agrees lines counted.report }
    ensures occasions { (kinds : Kinds) (input : List ℕ) (first end : ℕ) (trees : List GameTree)
        (lines : List Line) (counted : Counted) → AreLines input first 0 trees end lines
        → HasNoTree input end → IsCounted kinds input counted
        → sum_by (λ line. occasions_in line.what) lines ≡ counted.dictionary.moves }
{
    // This law is called for the proof alone.
    replays_have_one_result();
}

/// States in its contract what is read back; a call does nothing. The text of trees that are cut
/// out is read back as exactly those trees, in their order. Each is the tree that was chosen, with
/// its values at other byte indices. If it is a game, it is the same game.
pub fn cuts_are_read_back()
    ensures trees { (asked : Asked) (input : List ℕ) (number place end : ℕ)
        (trees : List GameTree) (lines : List Line) → asked.form ≡ form.Trees
        → AreLines input number place trees end lines
        → IsReadFrom (pieces asked input trees lines) 0 (chosen_trees asked trees lines) }
    ensures games { (from to : ℕ) (tree : GameTree) (game : Actions)
        → record_of_tree tree ≡ Ok (kind.Go game)
        → record_of_tree (tree_at (moved from to) tree) ≡ Ok (kind.Go game) }
{}
