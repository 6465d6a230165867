//! Counts a move of one colour onto an empty point (an occasion): only the points that have changed
//! since the last one are looked at. A field is a board that keeps the pattern words of its points.
ghost use Rattle.std.specs.Prelude.{◌≡◌, ◌+◌, ◌-◌, ◌<◌, ◌^◌, ◌∷◌, ℕ, [], length, slice_index};
ghost use Rattle.std.specs.Prelude.{IfOk, IfErr, OnOk};
ghost use Rattle.go_board.specs.Point.{IsOn};
ghost use Rattle.go_board.specs.Board.{position_of};
ghost use Rattle.go_board.specs.declared.points.Point.{Point};
ghost use Rattle.shape_core.specs.declared.words.Kinds.TheVariants as Kinds;
ghost use Rattle.tally_core.specs.Walk.{shapes_of, played_among};
ghost use Rattle.tally_core.specs.Inner.Meeting.{Meets, CountsStay, IsMet};
ghost use Rattle.tally_core.specs.Inner.Standing.{AreStays, there_with, patterns_staying, AreStanding};
ghost use Rattle.tally_core.specs.Inner.Sight.{Fit, there_at, PlayedStays, StaysAt, HasLooked};
ghost use Rattle.tally_core.specs.Inner.Sight.{AllFilled, points_in, changed_in, here_on};
ghost use Rattle.tally_core.specs.Inner.Sight.{diamond_on, seen_on, played_on};
ghost use Rattle.tally_core.specs.Inner.Sight.{IsSideOn, IsSeenOn, AddsThere, AddsPlayed};
ghost use Rattle.tally_core.specs.declared.faults.TallyFault.TheVariants as fault;
ghost use Rattle.go_board.specs.declared.points.Stone.TheVariants as stone;

use crate::faults::TallyFault;
use crate::meetings::Meetings;
use crate::packing::PackedStays;
use crate::sides::Side;
use crate::stays::{Stay, begin, play, settle_point};
use go_board::{Colour, Point};
use shape_core::{Field, Kinds};
use std::alloc::AllocError;

/// Returns the index in `meetings` of the diamond of a `point`, with `mover` to move, as
/// `Meetings::meet` does. It is out of line, so that the loop over points has enough registers of
/// the processor where squares alone are counted.
#[cold]
#[inline(never)]
fn meet_diamond(
    meetings: &mut Meetings,
    field: &Field,
    mover: Colour,
    point: Point,
) -> Result<usize, AllocError>
    requires on_board { IsOn field.now.board.size point }
    requires kept { field.now.kinds ≡ Kinds.Both }
    ensures met { IfOk result (IsMet (shapes_of meetings.new) (diamond_on field.now mover point)) }
    ensures small { IfOk result (λ at. at < 2 ^ 63 - 1) }
    ensures meets { OnOk result (Meets (shapes_of meetings.old)
        (diamond_on field.now mover point ∷ [])
        (shapes_of meetings.new)) }
    ensures counts { OnOk result (CountsStay meetings.old meetings.new) }
{
    meetings.meet(field.canonical_diamond(point, mover))
}

/// Looks again at an empty `point` that has changed: adds to `meetings` how often the patterns in
/// `stays` were there, and replaces `stays` by the square that the point has now, and its diamond
/// if diamonds are counted. `occasions` is how many moves onto empty points `mover` has made
/// before. `TallyFault::Memory` if memory was refused. It is inlined, as what calls it is, up to
/// where `mover` is a constant.
#[inline(always)]
fn see_point(
    meetings: &mut Meetings,
    stays: &mut PackedStays,
    field: &Field,
    mover: Colour,
    point: Point,
    occasions: u64,
) -> Result<(), TallyFault>
    requires on_board { IsOn field.now.board.size point }
    requires empty { position_of field.now.board point ≡ stone.Empty }
    requires stays { AreStays (length (shapes_of meetings.old)) occasions stays.old }
    requires few { Fit (there_at meetings.old occasions stays.old) }
    ensures stays { OnOk result (AreStays (length (shapes_of meetings.new)) occasions stays.new) }
    ensures patterns { OnOk result (patterns_staying (shapes_of meetings.new) stays.new
        ≡ here_on field.now mover point) }
    ensures there { OnOk result (StaysAt occasions meetings.old stays.old meetings.new stays.new) }
    ensures played { OnOk result (PlayedStays meetings.old meetings.new) }
    ensures meets { OnOk result (Meets (shapes_of meetings.old)
        (here_on field.now mover point)
        (shapes_of meetings.new)) }
    ensures fault { IfErr result (λ found. found ≡ fault.Memory) }
{
    settle_point(meetings, stays.get(), occasions);
    let square = begin(meetings, field.canonical(point, mover), occasions)?;
    match field.kinds() {
        Kinds::Squares => stays.put_square(square, occasions),
        Kinds::Both => {
            let meeting = meet_diamond(meetings, field, mover, point)?;
            let since = occasions;
            *stays = PackedStays::new(square, Some(Stay { meeting, since }), occasions);
        }
    }
    Ok(())
}

impl Side {
    /// Ends the patterns of some points of a `row` that have stones now: adds to `meetings` how
    /// often they were there, and removes them from `self.points`. `columns` has a bit for the
    /// column of each of these points.
    fn leave_points(&mut self, meetings: &mut Meetings, field: &Field, row: u8, columns: u64)
        requires row { row < field.now.board.size.rows }
        requires columns { columns < 2 ^ field.now.board.size.columns }
        requires filled { AllFilled field.now.board row columns }
        requires standing { AreStanding field.now.board.size (length (shapes_of meetings.old))
            self.old }
        requires few { Fit (there_with meetings.old self.old) }
        ensures looked { (mover : Colour) → HasLooked field.now mover
            (points_in field.now.board.size row columns) []
            meetings.old self.old meetings.new self.new }
        ensures changed { self.new.changed ≡ self.old.changed }
        ensures standing { self.new.standing ≡ self.old.standing }
    {
        let size = field.size();
        let occasions = self.occasions;
        let mut bits = columns;
        while bits != 0 {
            let column = bits.trailing_zeros();
            bits &= !(1 << column);
            let point = Point {
                column: column as u8,
                row,
            };
            let stays = &mut self.points[size.index(point)];
            settle_point(meetings, stays.get(), occasions);
            *stays = PackedStays::none();
        }
    }

    /// Brings the points of a `row` that have changed up to date, for `mover`, whose side this is,
    /// and takes them out of the set `changed`. First the pattern of each point that has a stone
    /// now ends, and its counts are added in `meetings`. Then the pattern of each point that is
    /// empty now, from the left, is found and begins. A point that had a stone and has one still
    /// has no pattern, so it is not looked at. `TallyFault::Memory` if memory was refused.
    #[inline(always)]
    fn see_row(
        &mut self,
        meetings: &mut Meetings,
        field: &Field,
        mover: Colour,
        row: u8,
    ) -> Result<(), TallyFault>
        requires row { row < field.now.board.size.rows }
        requires standing { AreStanding field.now.board.size (length (shapes_of meetings.old))
            self.old }
        requires few { Fit (there_with meetings.old self.old) }
        ensures looked { OnOk result (HasLooked field.now mover
            (changed_in field.now.board.size self.old row) []
            meetings.old self.old meetings.new self.new) }
        ensures later { (k : ℕ) → row < k →
            slice_index self.new.changed.items k ≡ slice_index self.old.changed.items k }
        ensures fault { IfErr result (λ found. found ≡ fault.Memory) }
    {
        let size = field.size();
        let occasions = self.occasions;
        let at = usize::from(row);
        let changed = self.changed[at];
        if changed == 0 {
            return Ok(());
        }
        let standing = self.standing[at];
        let empty = field.empty_columns(row);
        let mut coming = changed & empty;
        self.leave_points(meetings, field, row, changed & standing & !empty);
        self.changed[at] = 0;
        self.standing[at] = (standing & !changed) | coming;
        while coming != 0 {
            let column = coming.trailing_zeros();
            coming &= !(1 << column);
            let point = Point {
                column: column as u8,
                row,
            };
            let stays = &mut self.points[size.index(point)];
            see_point(meetings, stays, field, mover, point, occasions)?;
        }
        Ok(())
    }

    /// Counts a move of `mover`, whose side this is, onto the empty point `at`: looks once more at
    /// the points that have changed since the last such move, row by row from the top, and counts
    /// the patterns of `at` as played. The board is that before the move. `TallyFault::Memory` if
    /// memory was refused.
    #[inline(always)]
    pub(crate) fn count(
        &mut self,
        meetings: &mut Meetings,
        field: &Field,
        mover: Colour,
        at: Point,
    ) -> Result<(), TallyFault>
        requires on_board { IsOn field.now.board.size at }
        requires empty { position_of field.now.board at ≡ stone.Empty }
        requires side { IsSideOn field.now mover meetings.old self.old }
        requires there { Fit (there_with meetings.old self.old) }
        requires played { (shape : ℕ) → played_among meetings.old shape + 2 < 2 ^ 64 }
        requires occasions { self.old.occasions + 1 < 2 ^ 64 }
        ensures seen { OnOk result (IsSeenOn field.now mover meetings.new self.new) }
        ensures occasions { OnOk result (self.new.occasions ≡ self.old.occasions + 1) }
        ensures there { OnOk result
            (AddsThere (seen_on field.now mover) meetings.old self.old meetings.new self.new) }
        ensures played { OnOk result
            (AddsPlayed (played_on field.now mover at) meetings.old meetings.new) }
        ensures meets { OnOk result (Meets (shapes_of meetings.old)
            (seen_on field.now mover)
            (shapes_of meetings.new)) }
        ensures fault { IfErr result (λ found. found ≡ fault.Memory) }
    {
        for row in 0..field.size().rows() {
            self.see_row(meetings, field, mover, row)?;
        }
        let stays = self.points[field.size().index(at)].get();
        play(meetings, stays.square);
        play(meetings, stays.diamond);
        self.occasions += 1;
        Ok(())
    }
}
