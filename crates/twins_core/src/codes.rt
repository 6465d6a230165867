//! The code of a record: bytes that no other record has.
ghost use Rattle.std.specs.Prelude.{◌≡◌, ◌++◌, OnOk, IfOk};
ghost use Rattle.twins_core.specs.Codes.{stone_code, action_code, record_code};

use go_board::{Colour, Stone};
use go_record::{Action, Record};
use std::alloc::{AllocError, Global};

/// Returns the byte with which the code of a setup of `stone` begins; two corners of a rectangle
/// follow.
fn stone_code(stone: Stone) -> u8
    ensures { result ≡ stone_code stone }
{
    match stone {
        Stone::Empty => 4,
        Stone::Black => 5,
        Stone::White => 6,
    }
}

/// Appends the code of an action: a byte for what it is, and then the column and row of its point,
/// or of two corners for setup.
fn push_action(code: &mut Vec<u8>, action: Action) -> Result<(), AllocError>
    ensures { OnOk result (code.new.items ≡ code.old.items ++ action_code action) }
{
    match action {
        Action::Move {
            colour: Colour::Black,
            at,
        } => code.extend_from_slice(&[0, at.column, at.row]),
        Action::Move {
            colour: Colour::White,
            at,
        } => code.extend_from_slice(&[1, at.column, at.row]),
        Action::Pass {
            colour: Colour::Black,
        } => code.extend_from_slice(&[2]),
        Action::Pass {
            colour: Colour::White,
        } => code.extend_from_slice(&[3]),
        Action::Set { low, high, stone } => code.extend_from_slice(&[
            stone_code(stone),
            low.column,
            low.row,
            high.column,
            high.row,
        ]),
    }
}

/// Returns the code of a record: bytes for the size of its board and for each action, which no
/// other record has. It takes memory for two bytes, and for five at most for each action, three if
/// it is a move.
pub(crate) fn code_of(alloc: Global, game: &Record) -> Result<Vec<u8>, AllocError>
    ensures { IfOk result (λ code. code.items ≡ record_code game.now) }
{
    let mut code = Vec::new(alloc);
    code.extend_from_slice(&[game.size().columns(), game.size().rows()])?;
    let actions = game.actions();
    for action in actions {
        push_action(&mut code, *action)?;
    }
    Ok(code)
}
