//! What stands round a point of a board.
ghost use Rattle.std.specs.Prelude.{◌≡◌, ◌+◌, ◌*◌, ◌<◌, ◌^◌, MatchOption};
ghost use Rattle.shape_keys.specs.Around.{AreAround, IsCodeAt, IsPoint};
ghost use Rattle.shape_keys.specs.Status.{number_of};
ghost use Rattle.shape_keys.specs.declared.statuses.Status.TheVariants as status;

use crate::statuses::Status;

/// The code of a cell that is off the board.
const OFF_BOARD: u8 = 3;

/// Returns the index in `board`, the list of its points row by row, of the point at this column and
/// row, both from 0. None if the board has no such point.
fn place_on(board: &[u8], columns: usize, column: usize, row: usize) -> Option<usize>
    ensures { MatchOption result (IsPoint board.now columns column row → ⊥)
        (λ place. (place ≡ row * columns + column) × IsPoint board.now columns column row) }
{
    if column >= columns {
        return None;
    }
    let row_start = row.checked_mul(columns)?;
    let place = row_start.checked_add(column)?;
    if place < board.len() {
        Some(place)
    } else {
        None
    }
}

/// Returns the code of the cell at column `x` and row `y`, both counted from two before the board's
/// first; `OFF_BOARD` if it is not on the board.
fn code_at(board: &[u8], columns: usize, x: usize, y: usize) -> u8
    ensures { IsCodeAt board.now columns x y result }
{
    if x < 2 || y < 2 {
        return OFF_BOARD;
    }
    match place_on(board, columns, x - 2, y - 2) {
        Some(place) => board[place],
        None => OFF_BOARD,
    }
}

/// Returns the codes of the square (5 by 5) round the point at this column and row: those of
/// `board`, and `OFF_BOARD` for cells off the board.
fn around(board: &[u8], columns: usize, column: usize, row: usize) -> [u8; 25]
    requires column { column < 2 ^ 32 }
    requires row { row < 2 ^ 32 }
    ensures { AreAround board.now columns column row result }
{
    let mut codes = [OFF_BOARD; 25];
    for cell in 0..25 {
        codes[cell] = code_at(board, columns, column + cell % 5, row + cell / 5);
    }
    codes
}

/// Writes to `codes` the codes of the square (5 by 5) round a point of a board, row by row from the
/// top, each row from the left: those that `board` has for its points, and 3 off the board. `board`
/// has a code for each point, row by row, each row of `columns` codes; the point's `column` and
/// `row` are counted from 0. Takes no memory.
///
/// Returns `Done` and writes the codes. Returns `BadPoint` exactly if the board has no such point;
/// `codes` stays as it was then.
#[unsafe(no_mangle)]
pub extern "C" fn shapes_around(
    board: &[u8],
    columns: u32,
    column: u32,
    row: u32,
    codes: &mut [u8; 25],
) -> u32
    ensures done { IsPoint board.now columns column row → (result ≡ number_of status.Done)
        × AreAround board.now columns column row codes.new }
    ensures point { (IsPoint board.now columns column row → ⊥)
        → (result ≡ number_of status.BadPoint) × (codes.new ≡ codes.old) }
{
    let (columns, column, row) = (columns as usize, column as usize, row as usize);
    match place_on(board, columns, column, row) {
        Some(_) => {
            *codes = around(board, columns, column, row);
            Status::Done.number()
        }
        None => Status::BadPoint.number(),
    }
}
