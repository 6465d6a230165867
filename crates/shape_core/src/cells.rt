//! Where the cells of a pattern lie round a point.
ghost use Rattle.std.specs.Prelude.{◌≡◌, ◌≢◌, ◌<◌, ◌≤◌, ◌+◌, ℕ, length, get_or, take, MatchOption};
ghost use Rattle.go_board.specs.declared.points.Point.{Point};
ghost use Rattle.go_board.specs.Extent.{IsExtent};
ghost use Rattle.go_board.specs.Point.{IsOn};
ghost use Rattle.shape_core.specs.Inner.Table.{Sees, cells_of, rows_of};

use crate::words::Kind;
use go_board::{Point, Size};

/// How far a cell lies from the middle: columns to the right and rows down, each with three added
/// so that none is below 0.
pub type Away = (u8, u8);

/// The 25 cells of a square, cell 0 first: row by row from the top, each row from the left. A cell
/// (a, b) lies a - 3 columns to the right of the middle and b - 3 rows below it. Cell i has the
/// bits 2i and 2i + 1 of a square's word.
#[rattlefmt::skip]
pub const SQUARE_CELLS: [Away; 25] = [
    (1, 1), (2, 1), (3, 1), (4, 1), (5, 1),
    (1, 2), (2, 2), (3, 2), (4, 2), (5, 2),
    (1, 3), (2, 3), (3, 3), (4, 3), (5, 3),
    (1, 4), (2, 4), (3, 4), (4, 4), (5, 4),
    (1, 5), (2, 5), (3, 5), (4, 5), (5, 5),
];

/// The 25 cells of a diamond, cell 0 first: row by row from the top, each row from the left. A cell
/// (a, b) lies a - 3 columns to the right of the middle and b - 3 rows below it. Cell i has the
/// bits 2i and 2i + 1 of a diamond's word.
#[rattlefmt::skip]
pub const DIAMOND_CELLS: [Away; 25] = [
                            (3, 0),
                    (2, 1), (3, 1), (4, 1),
            (1, 2), (2, 2), (3, 2), (4, 2), (5, 2),
    (0, 3), (1, 3), (2, 3), (3, 3), (4, 3), (5, 3), (6, 3),
            (1, 4), (2, 4), (3, 4), (4, 4), (5, 4),
                    (2, 5), (3, 5), (4, 5),
                            (3, 6),
];

/// A row of a pattern: how many cells it has to each side of the middle column, and how many rows
/// below the middle it lies, with three added so that none is below 0.
pub type AwayRow = (u8, u8);

/// The rows of a diamond, from the top, each with the number of its first cell.
const DIAMOND_ROWS: [(AwayRow, usize); 7] = [
    ((0, 0), 0),
    ((1, 1), 1),
    ((2, 2), 4),
    ((3, 3), 9),
    ((2, 4), 16),
    ((1, 5), 21),
    ((0, 6), 24),
];

/// Returns how many rows a pattern of this `kind` has.
pub fn row_count(kind: Kind) -> usize
    ensures { result ≡ length (rows_of kind) }
{
    match kind {
        Kind::Square => 5,
        Kind::Diamond => 7,
    }
}

/// Returns a row of a pattern of this `kind`, and the number of its first cell. `index` counts the
/// rows from the top, from 0.
pub fn row_at(kind: Kind, index: usize) -> (AwayRow, usize)
    requires { index < length (rows_of kind) }
    ensures row { result.0 ≡ get_or (rows_of kind) index (0, 0) }
    ensures first { result.1 ≡ length (cells_of (take index (rows_of kind))) }
{
    match kind {
        // No table, so that what is the same in all rows of a square is found once for all.
        Kind::Square => ((2, 1 + index as u8), 5 * index),
        Kind::Diamond => DIAMOND_ROWS[index],
    }
}

/// Returns the point that lies `away` from `point`, or None if that is off the board. `away` has
/// three added to its columns and rows, as `Away` says.
pub fn reached(size: Size, point: Point, away: Away) -> Option<Point>
    requires on_board { IsOn size point }
    requires columns { away.0 ≤ 6 }
    requires rows { away.1 ≤ 6 }
    ensures { MatchOption result
        ((q : Point) → IsOn size q → ¬ Sees point away q)
        (λ q. IsOn size q × Sees point away q) }
{
    let column = (point.column + away.0).checked_sub(3)?;
    let row = (point.row + away.1).checked_sub(3)?;
    let reached = Point { column, row };
    size.has(reached).then_some(reached)
}

/// Returns the row of the board whose points have `point` in the row `down` of their patterns,
/// which lies `down - 3` rows below the middle. None if that row is off the board.
pub fn row_seeing(size: Size, point: Point, down: u8) -> Option<u8>
    requires on_board { IsOn size point }
    requires extent { IsExtent size }
    requires down { down ≤ 6 }
    ensures { MatchOption result
        ((q : Point) → IsOn size q → q.row + down ≢ point.row + 3)
        (λ row. (row < size.rows) × (row + down ≡ point.row + 3)) }
{
    // A row above the board wraps to more than any board has.
    let row = (point.row + 3).wrapping_sub(down);
    (row < size.rows()).then_some(row)
}
