//! The law that a move has one result, as the contract of a function that does nothing.
ghost use Rattle.go_board.specs.declared.points.Point.{Point};
ghost use Rattle.go_board.specs.declared.points.Colour.{Colour};
ghost use Rattle.go_board.specs.Extent.{Extent};
ghost use Rattle.go_board.specs.Point.{IsOn};
ghost use Rattle.go_board.specs.Position.{Position, AreSame};
ghost use Rattle.go_board.specs.Play.{Plays};

/// States for proofs that a move has one result: if two positions are the same on the board, they
/// are the same there after the same move. A call does nothing.
pub fn moves_have_one_result()
    ensures { (size : Extent) (before again : Position) (mover : Colour) (at : Point)
        (first second : Position) →
        IsOn size at →
        AreSame size before again →
        Plays size before mover at first →
        Plays size again mover at second →
        AreSame size first second }
{}
