//! The neighbours of a point.
ghost use Rattle.std.specs.Prelude.{◌≡◌, Some, length, All, IfSome, Contains};
ghost use Rattle.go_board.specs.declared.points.Point.{Point};
ghost use Rattle.go_board.specs.Point.{IsOn, AreNeighbours};

use crate::points::{Point, Size};

/// Returns the neighbours of a point: left, right, above and below, each None if it is off the
/// board.
pub(crate) fn neighbours(size: Size, point: Point) -> [Option<Point>; 4]
    requires { IsOn size point }
    ensures four { length result ≡ 4 }
    ensures only { All (λ next. IfSome next (λ q. IsOn size q × AreNeighbours point q)) result }
    ensures each { (q : Point) → IsOn size q → AreNeighbours point q → Contains result (Some q) }
{
    let Point { column, row } = point;
    let left = if column > 0 {
        Some(Point {
            column: column - 1,
            row,
        })
    } else {
        None
    };
    let right = if column < size.columns() - 1 {
        Some(Point {
            column: column + 1,
            row,
        })
    } else {
        None
    };
    let above = if row > 0 {
        Some(Point {
            column,
            row: row - 1,
        })
    } else {
        None
    };
    let below = if row < size.rows() - 1 {
        Some(Point {
            column,
            row: row + 1,
        })
    } else {
        None
    };
    [left, right, above, below]
}
