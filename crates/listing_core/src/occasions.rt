//! How many moves a game has, and how many of them are occasions: moves onto empty points.
ghost use Rattle.std.specs.Prelude.{◌≡◌, ◌≤◌, All};
ghost use Rattle.go_board.specs.Board.{position_of};
ghost use Rattle.go_record.specs.Actions.{IsActionOn};
ghost use Rattle.listing_core.specs.Games.{is_move, moves_in};
ghost use Rattle.listing_core.specs.Inner.Fronts.{occasions_of, HasNumberFrom};

use go_board::{Board, Stone};
use go_record::{Action, apply};

/// Returns how many of the actions are moves or passes.
pub(crate) fn moves_in(actions: &[Action]) -> usize
    ensures { result ≡ moves_in actions.now }
{
    actions.iter().filter(|action| is_move(action)).count()
}

/// Whether an action is a move or a pass.
fn is_move(action: &Action) -> bool
    ensures { result ≡ is_move action.now }
{
    match action {
        Action::Set { .. } => false,
        Action::Move { .. } | Action::Pass { .. } => true,
    }
}

/// Returns 1 if `action` is a move onto a point that is empty on `board`, else 0.
fn occasions_of(board: &Board, action: Action) -> usize
    requires { IsActionOn board.now.size action }
    ensures number { result ≡ occasions_of (position_of board.now) action }
    ensures few { result ≤ 1 }
{
    match action {
        Action::Move { at, .. } => usize::from(board.cell(at) == Stone::Empty),
        Action::Set { .. } | Action::Pass { .. } => 0,
    }
}

/// Applies the actions to a board in order, and returns how many of them are moves onto empty
/// points when they are played.
pub(crate) fn count_occasions(board: &mut Board, actions: &[Action]) -> usize
    requires { All (IsActionOn board.old.size) actions.now }
    ensures { HasNumberFrom board.old.size actions.now (position_of board.old) result }
{
    let mut occasions = 0;
    for action in actions {
        occasions += occasions_of(board, *action);
        apply(board, *action);
    }
    occasions
}
