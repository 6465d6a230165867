//! Makes the text of a board.
ghost use Rattle.std.specs.Prelude.{◌≡◌, ◌++◌, ◌<◌, OnOk, IfOk};
ghost use Rattle.go_board.specs.Board.{position_of};
ghost use Rattle.engine_core.specs.Boards.{glyph_of, row_text, position_text};

use go_board::{Board, Point, Stone};
use std::alloc::{AllocError, Global};

/// Returns the glyph of a point: `.`, `X` or `O`.
fn glyph(stone: Stone) -> u8
    ensures { result ≡ glyph_of stone }
{
    match stone {
        Stone::Empty => b'.',
        Stone::Black => b'X',
        Stone::White => b'O',
    }
}

/// Appends the glyphs of row `row` of the board, counted from 0 at the top, and a line feed.
fn push_row(text: &mut Vec<u8>, board: &Board, row: u8) -> Result<(), AllocError>
    requires { row < board.now.size.rows }
    ensures { OnOk result (text.new.items
        ≡ text.old.items ++ row_text board.now.size (position_of board.now) row) }
{
    for column in 0..board.size().columns() {
        text.push(glyph(board.cell(Point { column, row })))?;
    }
    text.push(b'\n')?;
    Ok(())
}

/// Makes the text of a board: its rows from the top, each ended by a line feed.
pub(crate) fn board_text(alloc: Global, board: &Board) -> Result<Vec<u8>, AllocError>
    ensures { IfOk result (λ text. text.items
        ≡ position_text board.now.size (position_of board.now)) }
{
    let mut text = Vec::new(alloc);
    for row in 0..board.size().rows() {
        push_row(&mut text, board, row)?;
    }
    Ok(text)
}
