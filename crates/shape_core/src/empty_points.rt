//! The empty points of a board, as bits of its rows.
ghost use Rattle.std.specs.Prelude.{◌≡◌, length, IfOk, All};
ghost use Rattle.go_board.specs.declared.points.Stone.TheVariants as stone;
ghost use Rattle.go_board.specs.Extent.{Extent, IsExtent};
ghost use Rattle.go_board.specs.Point.{IsOn};
ghost use Rattle.go_board.specs.Position.{Position, placed};
ghost use Rattle.shape_core.specs.Inner.EmptyPoints.{AreEmpty, RowsOf};
ghost use Rattle.shape_core.specs.Inner.KeptLists.{emptied};

use go_board::{Point, Size, Stone};
use std::alloc::{AllocError, Global};

/// The empty points of a board: for each row a number, whose bit c is set if the point in column c,
/// counted from 0, is empty.
#[derive(Drop)]
pub struct EmptyPoints {
    pub rows: Vec<u64>,
}

impl EmptyPoints {
    /// Returns the empty points of a board without stones, which are all its points. It takes
    /// memory for each row; `AllocError` if that is refused.
    pub fn new(alloc: Global, size: Size) -> Result<EmptyPoints, AllocError>
        ensures { IfOk result (λ empties. (position : Position) →
            ((q : Point) → IsOn size q → position q ≡ stone.Empty) →
            AreEmpty size position empties.rows.items) }
    {
        let columns = usize::from(size.columns());
        let rows = vec![in alloc; (1 << columns) - 1; usize::from(size.rows())]?;
        Ok(EmptyPoints { rows })
    }

    /// Returns a copy of these points. It takes memory for each row; `AllocError` if that is
    /// refused.
    pub fn copied(&self, alloc: Global) -> Result<EmptyPoints, AllocError>
        ensures { IfOk result (λ empties. empties.rows.items ≡ self.now.rows.items) }
    {
        let mut rows = Vec::new(alloc);
        rows.extend_from_slice(&self.rows)?;
        Ok(EmptyPoints { rows })
    }

    /// Updates the set after `stone` was put on `point`, or after the point was emptied
    /// (`Stone::Empty`).
    pub fn put(&mut self, point: Point, stone: Stone)
        requires { (size : Extent) × RowsOf size self.old.rows.items × IsOn size point }
        ensures follow { (size : Extent) → (position : Position) → IsExtent size →
            IsOn size point → AreEmpty size position self.old.rows.items →
            AreEmpty size (placed position point stone) self.new.rows.items }
        ensures rows { length self.new.rows.items ≡ length self.old.rows.items }
    {
        let bit = 1 << point.column;
        let row = &mut self.rows[usize::from(point.row)];
        match stone {
            Stone::Empty => *row |= bit,
            Stone::Black | Stone::White => *row &= !bit,
        }
    }

    /// Updates the set after these `points` of the board were emptied.
    pub fn empty(&mut self, points: &[Point])
        requires { (size : Extent) × RowsOf size self.old.rows.items × All (IsOn size) points.now }
        ensures { (size : Extent) → (position : Position) → IsExtent size →
            All (IsOn size) points.now → AreEmpty size position self.old.rows.items →
            AreEmpty size (emptied position points.now) self.new.rows.items }
    {
        for point in points {
            self.put(*point, Stone::Empty);
        }
    }
}
