//! Liberties on a board, worked out by the rule of capture.
use go_board::{Board, Point, Size, Stone};
use std::alloc::Global;

/// Sets a point, if it is on the board.
fn set(board: &mut Board, stone: Stone, column: u8, row: u8) {
    let point = Point { column, row };
    if board.size().has(point) {
        board.set(point, stone);
    }
}

/// Whether the stone at a point has a liberty; None if there is no stone or no such point.
fn lives(board: &mut Board, column: u8, row: u8) -> Option<bool> {
    let point = Point { column, row };
    if !board.size().has(point) || board.cell(point) == Stone::Empty {
        return None;
    }
    Some(board.has_liberty(point))
}

/// Sets a black row at the edge of an empty board of three columns and three rows, and a white row
/// next to it. Returns whether the black row has no liberty and the white one has.
fn shuts_in(board: &mut Board) -> bool {
    for column in 0..3 {
        set(board, Stone::Black, column, 0);
        set(board, Stone::White, column, 1);
    }
    lives(board, 0, 0) == Some(false) && lives(board, 0, 1) == Some(true)
}

/// The same on a new board. None if memory for it was refused.
fn row_is_shut_in(alloc: Global) -> Option<bool> {
    let mut board = Board::new(alloc, Size::new(3, 3)?).ok()?;
    Some(shuts_in(&mut board))
}

#[test]
fn a_row_that_is_shut_in_has_no_liberty(rt: HostRuntime) {
    assert!(rt; row_is_shut_in(rt.alloc()) == Some(true));
}
