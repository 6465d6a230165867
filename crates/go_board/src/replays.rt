//! The trait of boards on which a game can be replayed.
ghost use Rattle.std.specs.Prelude.{◌≡◌, List, [], ◌∷◌};
ghost use Rattle.go_board.specs.Board.{Stones, position_of};
ghost use Rattle.go_board.specs.declared.points.Point.{Point as At};
ghost use Rattle.go_board.specs.Play.{SetsOn, PlaysOn, stone_of};
ghost use Rattle.go_board.specs.Point.{IsOn};

use crate::boards::{Board, Played};
use crate::points::{Colour, Point, Stone};

/// A board on which a game can be replayed, or a type that keeps such a board and more.
pub trait Replayable {
    /// The board as it is now.
    ghost board_of: { Self → Stones };

    /// Used in contracts only: how that which the type keeps beside its board may change from the
    /// first state to the second. For a `Board`, which keeps no more, it is always true.
    ghost Stays: { Self → Self → Type 0 };

    /// `Stays` is reflexive.
    ghost stays: { (board : Self) → Stays board board };

    /// `Stays` is transitive.
    ghost stays_on: { (before between after : Self) → Stays before between
        → Stays between after → Stays before after };

    /// Used in contracts only: how that which the type keeps beside its board may change from the
    /// first state to the second if only the stones on these points change. For a `Board`, which
    /// keeps no more, it is always true.
    ghost Touches: { List At → Self → Self → Type 0 };

    /// Puts a stone on a point, or empties it, whatever stood there; nothing is captured. If
    /// `stone` stood there already, no point's stone changes. The point is on the board. It takes
    /// no memory.
    fn put(&mut self, point: Point, stone: Stone)
        requires { IsOn (board_of self.old).size point }
        ensures sets { SetsOn (board_of self.old) point stone (board_of self.new) }
        ensures stays { Stays self.old self.new }
        ensures touches { Touches (point ∷ []) self.old self.new }
        ensures still { position_of (board_of self.old) point ≡ stone
            → Touches [] self.old self.new };

    /// Plays a move by the rule of capture, and returns how many stones it removed. The point is on
    /// the board. It takes no memory.
    fn play_move(&mut self, colour: Colour, point: Point) -> Played
        requires { IsOn (board_of self.old).size point }
        ensures plays { PlaysOn (board_of self.old) colour point (board_of self.new) result }
        ensures stays { Stays self.old self.new }
        ensures touches { Touches (point ∷ (board_of self.new).removed) self.old self.new }
        ensures still { position_of (board_of self.old) point ≡ stone_of colour
            → Touches (board_of self.new).removed self.old self.new };
}

impl Replayable for Board {
    ghost board_of = { λ board. board };

    ghost Stays = { λ before after. Unit {0} };

    ghost stays = { λ board. tt };

    ghost stays_on = { λ before between after h k. tt };

    ghost Touches = { λ points before after. Unit {0} };

    fn put(&mut self, point: Point, stone: Stone) {
        self.set(point, stone);
    }

    fn play_move(&mut self, colour: Colour, point: Point) -> Played {
        self.play(colour, point)
    }
}
