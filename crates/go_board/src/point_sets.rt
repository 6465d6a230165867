//! Sets of points of one board, on lists whose length never changes.
use crate::points::{Point, Size};
use std::alloc::{AllocError, Global};
use std::marker::Model;

/// A set of points of one board. The first `count` of `members` are its points, in the order in
/// which they were added. `marks` says of each point of the board whether it is in the set.
#[derive(Debug, Drop)]
pub(crate) struct PointSet {
    size: Size,
    marks: Vec<bool>,
    members: Vec<Point>,
    count: usize,
}

impl Model for PointSet {
    ghost use Rattle.std.specs.Prelude.{take};
    ghost use Rattle.go_board.specs.Inner.Gathered.{Gathered, IsPointSet};

    ghost Value = { Gathered };

    ghost view = { λ s. record { size = s.size; points = take s.count s.members.items } };

    ghost invariant = { λ s. IsPointSet s.size s.marks.items s.members.items s.count };
}

impl PointSet {
    ghost use Rattle.std.specs.Prelude.{◌≡◌, ◌*◌, ◌≤◌, ◌<◌, ◌⊎◌, List, [], ◌∷◌, ◌++◌, length};
    ghost use Rattle.std.specs.Prelude.{slice_index_or, IfOk, Contains};
    ghost use Rattle.go_board.specs.Gathered.{IsGathered};
    ghost use Rattle.go_board.specs.Inner.Gathered.{Gathered};
    ghost use Rattle.go_board.specs.Point.{IsOn};

    /// Makes an empty set, with room for each point of a board of this `size`. It takes memory for
    /// each point; `AllocError` if that is refused.
    pub fn new(alloc: Global, size: Size) -> Result<PointSet, AllocError>
        ensures { IfOk result (λ set. set ≡ record { size = size; points = [] }) }
    {
        let area = size.area();
        let corner = Point { column: 0, row: 0 };
        let marks = vec![in alloc; false; area]?;
        let members = vec![in alloc; corner; area]?;
        Ok(PointSet {
            size,
            marks,
            members,
            count: 0,
        })
    }

    /// Returns the number of points in the set.
    pub fn len(&self) -> usize
        ensures value { result ≡ length self.now.points }
        ensures few { result ≤ self.now.size.columns * self.now.size.rows }
        ensures gathered { IsGathered self.now.size self.now.points }
    {
        self.count
    }

    /// Returns the points, in the order in which they were added.
    pub fn points(&self) -> &[Point]
        ensures value { result.now ≡ self.now.points }
        ensures gathered { IsGathered self.now.size self.now.points }
    {
        &self.members[..self.count]
    }

    /// Adds a point, unless the set has it.
    pub fn add(&mut self, point: Point)
        requires { IsOn self.old.size point }
        ensures size { self.new.size ≡ self.old.size }
        ensures points { ((self.new.points ≡ self.old.points) × Contains self.old.points point)
            ⊎ (self.new.points ≡ self.old.points ++ point ∷ []) }
    {
        let index = self.size.index(point);
        if !self.marks[index] {
            self.marks[index] = true;
            self.members[self.count] = point;
            self.count += 1;
        }
    }

    /// Removes all points. The time is that of the points in the set, not of the board.
    pub fn clear(&mut self)
        ensures { self.new ≡ record { size = self.old.size; points = [] } }
    {
        for k in 0..self.count {
            let index = self.size.index(self.members[k]);
            self.marks[index] = false;
        }
        self.count = 0;
    }
}
