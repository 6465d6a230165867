//! Sides: what a walk of a game (its replay, move by move) stores for one colour to move.
ghost use Rattle.std.specs.Prelude.{◌≡◌, ◌<◌, ℕ, length, All, IfOk, IfErr};
ghost use Rattle.tally_core.specs.Walk.{shapes_of, there_among};
ghost use Rattle.tally_core.specs.Inner.Sight.{Fit, PlayedStays};
ghost use Rattle.tally_core.specs.Inner.Standing.{AreStays, there_with, IsNewSide};
ghost use Rattle.tally_core.specs.declared.faults.TallyFault.TheVariants as fault;

use crate::faults::TallyFault;
use crate::meetings::Meetings;
use crate::packing::PackedStays;
use crate::stays::settle_point;
use go_board::Size;
use std::alloc::Global;

/// What a walk of a game stores for one colour to move, so that only points that changed are looked
/// at: which pattern each empty point has, and since which occasion (a move of this colour onto an
/// empty point). How often the pattern has been there since is counted when the point has changed,
/// or by `settle`.
#[derive(Drop)]
pub struct Side {
    /// How many moves onto empty points this colour has made.
    pub occasions: u64,
    /// The points whose pattern words may have changed since the last such move: for each row of
    /// the board a number with a bit for each column.
    pub changed: Vec<u64>,
    /// The points that may have a pattern in `points`: for each row of the board a number with a
    /// bit for each column. After a move of this colour onto an empty point they are those that
    /// were empty before it.
    pub standing: Vec<u64>,
    /// The square and the diamond that each point has, and how many moves onto empty points this
    /// colour had made when the point got both. The points are in the order of rows from the top,
    /// each row from the left.
    pub points: Vec<PackedStays>,
}

impl Side {
    /// Makes what is stored before the first action: no point has a pattern yet, and every point is
    /// among those that changed. It takes memory for each point; `TallyFault::Memory` if that is
    /// refused.
    pub fn begin(alloc: Global, size: Size) -> Result<Side, TallyFault>
        ensures side { IfOk result (IsNewSide size) }
        ensures fault { IfErr result (λ found. found ≡ fault.Memory) }
    {
        let columns = usize::from(size.columns());
        let rows = usize::from(size.rows());
        let changed = vec![in alloc; (1 << columns) - 1; rows]?;
        let standing = vec![in alloc; 0; rows]?;
        let points = vec![in alloc; PackedStays::none(); size.area()]?;
        Ok(Side {
            occasions: 0,
            changed,
            standing,
            points,
        })
    }

    /// Adds to `meetings`, for each point, how often its patterns have been there since it got
    /// them. `self` does not change, so a second call would count this again.
    pub fn settle(&self, meetings: &mut Meetings)
        requires stays { All (AreStays (length (shapes_of meetings.old)) self.now.occasions)
            self.now.points.items }
        requires few { Fit (there_with meetings.old self.now) }
        ensures shapes { shapes_of meetings.new ≡ shapes_of meetings.old }
        ensures there { (shape : ℕ) →
            there_among meetings.new shape ≡ there_with meetings.old self.now shape }
        ensures played { PlayedStays meetings.old meetings.new }
    {
        for stays in &self.points {
            settle_point(meetings, stays.get(), self.occasions);
        }
    }
}
