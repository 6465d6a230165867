//! Computes the pattern words of the points of a board.
ghost use Rattle.std.specs.Prelude.{◌≡◌, ◌<◌, ◌≤◌, ◌^◌, length, map, All};
ghost use Rattle.go_board.specs.Point.{IsOn};
ghost use Rattle.go_board.specs.Board.{position_of};
ghost use Rattle.shape_core.specs.declared.words.Kind.TheVariants as kind;
ghost use Rattle.shape_core.specs.Inner.Table.{offset_of};
ghost use Rattle.shape_core.specs.Word.{sum_of};
ghost use Rattle.shape_core.specs.Around.{stone_code, code_around, word_around};

use crate::cells::{Away, DIAMOND_CELLS, SQUARE_CELLS, reached};
use crate::words::{DIAMOND, Word};
use go_board::{Board, Point, Stone};

/// The code of a cell off the board.
const OFF_BOARD: u8 = 3;

/// Returns the square of a point: the word of the five columns and five rows round it. The point is
/// on the board. Takes no memory.
pub fn around(board: &Board, point: Point) -> Word
    requires { IsOn board.now.size point }
    ensures { result ≡ word_around kind.Square board.now.size (position_of board.now) point }
{
    Word::of_bits(sum_around(board, point, &SQUARE_CELLS))
}

/// Returns the diamond of a point: the word of the points at most three steps away from it. The
/// point is on the board. Takes no memory.
pub fn diamond(board: &Board, point: Point) -> Word
    requires { IsOn board.now.size point }
    ensures { result ≡ word_around kind.Diamond board.now.size (position_of board.now) point }
{
    Word::of_bits(DIAMOND + sum_around(board, point, &DIAMOND_CELLS))
}

/// Returns the sum over these `cells` round `point`: each cell's code times 4 to the power of the
/// cell's index.
fn sum_around(board: &Board, point: Point, cells: &[Away; 25]) -> u64
    requires on_board { IsOn board.now.size point }
    requires columns { All (λ away. away.0 ≤ 6) cells.now }
    requires rows { All (λ away. away.1 ≤ 6) cells.now }
    ensures value { result
        ≡ sum_of
        (map
        (code_around board.now.size (position_of board.now) point)
        (map offset_of cells.now)) }
    ensures small { result < 2 ^ 50 }
{
    let mut sum = 0;
    for (cell, away) in cells.iter().enumerate() {
        sum += u64::from(code_away(board, point, *away)) << (2 * cell);
    }
    sum
}

/// Returns the code of the cell that lies `away` from `point`, which is `OFF_BOARD` if no point of
/// the board lies there.
fn code_away(board: &Board, point: Point, away: Away) -> u8
    requires on_board { IsOn board.now.size point }
    requires columns { away.0 ≤ 6 }
    requires rows { away.1 ≤ 6 }
    ensures { result ≡ code_around board.now.size (position_of board.now) point (offset_of away) }
{
    match reached(board.size(), point, away) {
        Some(near) => code_of(board.cell(near)),
        None => OFF_BOARD,
    }
}

/// Returns the code of a stone in pattern words: 0 for empty, 1 for black, 2 for white.
pub fn code_of(stone: Stone) -> u8
    ensures value { result ≡ stone_code stone }
    ensures small { result < 3 }
{
    match stone {
        Stone::Empty => 0,
        Stone::Black => 1,
        Stone::White => 2,
    }
}
