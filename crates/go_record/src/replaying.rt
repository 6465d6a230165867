//! The actions of a record, done on a board one after another. A board may keep more than its
//! stones: `Stays` of the trait `Replayable` says how that may change, and each call keeps to it.
ghost use Rattle.std.specs.Prelude.{◌≡◌, ◌≤◌, ◌<◌, All};
ghost use Rattle.std.specs.Prelude.{nat_le, ◌&&◌, ◌==◌, if◌then◌else◌};
ghost use Rattle.go_board.specs.declared.points.Point.{Point};
ghost use Rattle.go_board.specs.Point.{IsOn};
ghost use Rattle.go_board.specs.Board.{position_of};
ghost use Rattle.go_record.specs.Actions.{IsActionOn};
ghost use Rattle.go_record.specs.Replay.{filled, Does, Replays};

use crate::actions::Action;
use go_board::{Point, Replayable, Stone};

/// Puts `stone` on each point of one row from column `first` to column `last`, both included, or
/// empties them. Nothing is captured.
fn fill_row<B: Replayable>(board: &mut B, row: u8, first: u8, last: u8, stone: Stone)
    requires on_board { IsOn (B.board_of board.old).size (record { column = last; row = row }) }
    requires corners { first ≤ last }
    ensures size { (B.board_of board.new).size ≡ (B.board_of board.old).size }
    ensures stays { B.Stays board.old board.new }
    ensures position { (q : Point) → IsOn (B.board_of board.old).size q
        → position_of (B.board_of board.new) q
        ≡ filled (position_of (B.board_of board.old)) (record { column = first; row = row })
        (record { column = last; row = row }) stone q }
{
    for column in first..=last {
        board.put(Point { column, row }, stone);
    }
}

/// Puts `stone` on each point of a rectangle, or empties them. Nothing is captured. The corner
/// `low` has the lesser column and row, `high` the greater ones; both are part of it.
fn fill<B: Replayable>(board: &mut B, low: Point, high: Point, stone: Stone)
    requires on_board { IsOn (B.board_of board.old).size high }
    requires corners { (low.column ≤ high.column) × (low.row ≤ high.row) }
    ensures size { (B.board_of board.new).size ≡ (B.board_of board.old).size }
    ensures stays { B.Stays board.old board.new }
    ensures position { (q : Point) → IsOn (B.board_of board.old).size q
        → position_of (B.board_of board.new) q
        ≡ filled (position_of (B.board_of board.old)) low high stone q }
{
    for row in low.row..=high.row {
        fill_row(board, row, low.column, high.column, stone);
    }
}

/// Does one action: a rectangle is set and nothing captured, a move is played by the rule of
/// capture, a pass changes nothing. The action's points are on the board, and the corners of a
/// rectangle are in order: `low` has the lesser column and row. It takes no memory.
pub fn apply<B: Replayable>(board: &mut B, action: Action)
    requires { IsActionOn (B.board_of board.old).size action }
    ensures size { (B.board_of board.new).size ≡ (B.board_of board.old).size }
    ensures stays { B.Stays board.old board.new }
    ensures does { Does (B.board_of board.old).size action (position_of (B.board_of board.old))
        (position_of (B.board_of board.new)) }
{
    match action {
        Action::Set { low, high, stone } => fill(board, low, high, stone),
        Action::Move { colour, at } => {
            // How many stones the move removed is not needed.
            let _ = board.play_move(colour, at);
        }
        Action::Pass { .. } => {}
    }
}

/// Does the actions in order. Their points are on the board, and the corners of each rectangle are
/// in order: `low` has the lesser column and row. It takes no memory.
pub fn replay<B: Replayable>(board: &mut B, actions: &[Action])
    requires { All (IsActionOn (B.board_of board.old).size) actions.now }
    ensures size { (B.board_of board.new).size ≡ (B.board_of board.old).size }
    ensures stays { B.Stays board.old board.new }
    ensures replays { Replays (B.board_of board.old).size actions.now
        (position_of (B.board_of board.old)) (position_of (B.board_of board.new)) }
{
    for action in actions {
        apply(board, *action);
    }
}
