//! Finds each time in a game that a wanted pattern was played, with one look at each move onto an
//! empty point.
ghost use Rattle.std.specs.Prelude.{◌≡◌, ◌+◌, ◌<◌, ◌^◌, map, IfErr, OnOk};
ghost use Rattle.std.specs.List.{flat_map};
ghost use Rattle.go_board.specs.Board.{position_of};
ghost use Rattle.go_record.specs.Actions.{IsActionOn};
ghost use Rattle.tally_core.specs.Occasions.{occasion_of};
ghost use Rattle.tally_core.specs.declared.faults.TallyFault.TheVariants as fault;
ghost use Rattle.hits_core.specs.Hits.{hits_of_turn};
ghost use Rattle.hits_core.specs.Turns.{turn_of, number_after};
ghost use Rattle.hits_core.specs.declared.searches.Sought.TheVariants as sought;
ghost use Rattle.hits_core.specs.Inner.Finding.{GrowsBy, AddsGame};

use crate::found::Found;
use crate::games::Game;
use crate::looking::{Moment, push_sight, see_board};
use crate::wanted::Wanted;
use go_board::{Board, Stone};
use go_record::{Action, apply};
use std::alloc::Global;
use tally_core::TallyFault;

/// Returns the number that the first move or pass after `action` has. `number` is the one that was
/// due at `action`: a move or a pass takes it, so the next has one more; setup takes no number.
pub(crate) fn number_after(number: u64, action: Action) -> u64
    requires { number + 1 < 2 ^ 64 }
    ensures { result ≡ number_after number action }
{
    match action {
        Action::Set { .. } => number,
        Action::Move { .. } | Action::Pass { .. } => number + 1,
    }
}

/// Adds to `found` a hit for each wanted pattern of the point on which `action` plays. It adds none
/// if `action` is no move, or a move onto a stone. `board` is the position before `action`, and
/// `number` is the number of the move in the game.
fn look(
    board: &Board,
    wanted: &Wanted,
    game: &Game,
    number: u64,
    action: Action,
    found: &mut Found,
) -> Result<(), TallyFault>
    requires on_board { IsActionOn board.now.size action }
    requires size { board.now.size ≡ game.now.recorded.size }
    ensures grown { OnOk result (GrowsBy found.old found.new
        (flat_map (hits_of_turn sought.Played wanted.now game.now)
        (map (turn_of number) (occasion_of (position_of board.now) action)))) }
    ensures fault { IfErr result (λ found. found ≡ fault.Memory) }
{
    let Action::Move { colour, at } = action else {
        return Ok(());
    };
    if board.cell(at) != Stone::Empty {
        return Ok(());
    }
    let moment = Moment::of(game, number, colour);
    push_sight(found, moment, at, see_board(board, wanted, colour, at))
}

/// Replays `game`, and adds to `found` each time that a pattern of `wanted` was played. It takes
/// memory for a board. The only error is `Memory`: memory was refused.
pub(crate) fn find_played(
    alloc: Global,
    wanted: &Wanted,
    game: &Game,
    found: &mut Found,
) -> Result<(), TallyFault>
    ensures grown { OnOk result (AddsGame sought.Played wanted.now game.now found.old found.new) }
    ensures fault { IfErr result (λ found. found ≡ fault.Memory) }
{
    let mut board = Board::new(alloc, game.recorded.size())?;
    let actions = game.recorded.actions();
    let mut number = 1;
    for action in actions {
        look(&board, wanted, game, number, *action, found)?;
        apply(&mut board, *action);
        number = number_after(number, *action);
    }
    Ok(())
}
