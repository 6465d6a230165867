//! Laws of canonical words and of kinds, for proofs that stand on them: a call of one does nothing
//! when it runs.
ghost use Rattle.std.specs.Prelude.{◌≡◌, ◌↔◌, ◌<◌, ◌^◌, ℕ};
ghost use Rattle.go_board.specs.declared.points.Colour.{Colour};
ghost use Rattle.go_board.specs.declared.points.Point.{Point};
ghost use Rattle.go_board.specs.Extent.{Extent};
ghost use Rattle.go_board.specs.Position.{Position};
ghost use Rattle.shape_core.specs.Around.{word_around};
ghost use Rattle.shape_core.specs.Symmetry.{canonical_of, IsImageOf};
ghost use Rattle.shape_core.specs.Word.{kind_of};
ghost use Rattle.shape_core.specs.declared.words.Kind.{Kind};

/// States for proofs when two words, each with its colour to move, have the same canonical word:
/// exactly if one is among the sixteen images of the other. These are its eight images with its
/// mover, and the eight with the colours and the mover exchanged.
pub fn same_canonical()
    ensures { (a : ℕ) (mover : Colour) (b : ℕ) (other_mover : Colour) → a < 2 ^ 51 → b < 2 ^ 51
        → (canonical_of a mover ≡ canonical_of b other_mover) ↔ IsImageOf a mover b other_mover }
{}

/// States for proofs that a canonical word is of the kind (square or diamond) of the word it is
/// made of, and that the word round a point is of the kind that was asked for.
pub fn kinds_stay()
    ensures canonical { (word : ℕ) (mover : Colour)
        → kind_of (canonical_of word mover) ≡ kind_of word }
    ensures around { (kind : Kind) (size : Extent) (position : Position) (point : Point)
        → kind_of (word_around kind size position point) ≡ kind }
{}
