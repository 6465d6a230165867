//! Stays: the patterns that points have while a game is walked, and since when. Most stay from move
//! to move, and only what changes is looked up.
ghost use Rattle.std.specs.Prelude.{◌≡◌, ◌+◌, ◌<◌, ◌^◌, ◌∷◌, ℕ, [], length, IfOk, IfErr, OnOk};
ghost use Rattle.tally_core.specs.Inner.Times.{times_in};
ghost use Rattle.tally_core.specs.Walk.{shapes_of, there_among, played_among};
ghost use Rattle.tally_core.specs.Inner.Meeting.{Meets, CountsStay};
ghost use Rattle.tally_core.specs.Inner.Packing.{BeginsAt};
ghost use Rattle.tally_core.specs.Inner.Standing.{IsStay, patterns_of, waits, AreStays};
ghost use Rattle.tally_core.specs.Inner.Sight.{Fit, there_at, PlayedStays};
ghost use Rattle.tally_core.specs.declared.faults.TallyFault.TheVariants as fault;

use crate::faults::TallyFault;
use crate::meetings::Meetings;
use shape_core::Shape;

/// A pattern that a point has: its index in the list of the game's patterns (`meeting`), and how
/// many moves onto empty points the colour to move had made when the point got it (`since`).
#[derive(Clone, Copy)]
pub struct Stay {
    pub meeting: usize,
    pub since: u64,
}

/// The patterns that a point has: none if it is not empty, and no diamond if squares alone are
/// counted.
#[derive(Clone, Copy)]
pub struct Stays {
    pub square: Option<Stay>,
    pub diamond: Option<Stay>,
}

/// Counts the pattern of `stay` as there at each move of its colour onto an empty point since the
/// point got it. `occasions` is how many of these moves there have been by now. Does nothing for
/// None.
pub(crate) fn settle(meetings: &mut Meetings, stay: Option<Stay>, occasions: u64)
    requires stay { IsStay (length (shapes_of meetings.old)) occasions stay }
    requires few { (shape : ℕ) →
        there_among meetings.old shape + waits (shapes_of meetings.old) occasions stay shape
        < 2 ^ 64 }
    ensures shapes { shapes_of meetings.new ≡ shapes_of meetings.old }
    ensures there { (shape : ℕ) → there_among meetings.new shape
        ≡ there_among meetings.old shape + waits (shapes_of meetings.old) occasions stay shape }
    ensures played { (shape : ℕ) → played_among meetings.new shape
        ≡ played_among meetings.old shape }
{
    if let Some(stay) = stay {
        meetings.add_there(stay.meeting, occasions - stay.since);
    }
}

/// Counts the square and the diamond that a point has as there, each as `settle` does: once for
/// each of the colour's `occasions` (moves onto empty points) since the point got it.
pub(crate) fn settle_point(meetings: &mut Meetings, stays: Stays, occasions: u64)
    requires stays { AreStays (length (shapes_of meetings.old)) occasions stays }
    requires few { Fit (there_at meetings.old occasions stays) }
    ensures shapes { shapes_of meetings.new ≡ shapes_of meetings.old }
    ensures there { (shape : ℕ) →
        there_among meetings.new shape ≡ there_at meetings.old occasions stays shape }
    ensures played { PlayedStays meetings.old meetings.new }
{
    settle(meetings, stays.square, occasions);
    settle(meetings, stays.diamond, occasions);
}

/// Counts the pattern of `stay` as played once more. Does nothing for None.
pub(crate) fn play(meetings: &mut Meetings, stay: Option<Stay>)
    requires stay { (occasions : ℕ) × IsStay (length (shapes_of meetings.old)) occasions stay }
    requires few { (shape : ℕ) → played_among meetings.old shape + 1 < 2 ^ 64 }
    ensures shapes { shapes_of meetings.new ≡ shapes_of meetings.old }
    ensures there { (shape : ℕ) → there_among meetings.new shape ≡ there_among meetings.old shape }
    ensures played { (shape : ℕ) → played_among meetings.new shape
        ≡ played_among meetings.old shape
        + times_in (patterns_of (shapes_of meetings.old) stay) shape }
{
    if let Some(stay) = stay {
        meetings.add_played(stay.meeting);
    }
}

/// Finds `shape` in `meetings`, or adds it, and returns the stay of a point that has it from now
/// on; never None. `occasions` is how many moves onto empty points the colour to move has made by
/// now. It may take memory; `TallyFault::Memory` if that is refused. It is inlined, since it runs
/// for every point that changed.
#[inline(always)]
pub(crate) fn begin(
    meetings: &mut Meetings,
    shape: Shape,
    occasions: u64,
) -> Result<Option<Stay>, TallyFault>
    ensures stay { IfOk result (IsStay (length (shapes_of meetings.new)) occasions) }
    ensures begins { IfOk result (BeginsAt occasions) }
    ensures pattern { IfOk result (λ stay. patterns_of (shapes_of meetings.new) stay ≡ shape ∷ []) }
    ensures waits { IfOk result (λ stay. (other : ℕ) →
        waits (shapes_of meetings.new) occasions stay other ≡ 0) }
    ensures meets { OnOk result (Meets (shapes_of meetings.old) (shape ∷ [])
        (shapes_of meetings.new)) }
    ensures counts { OnOk result (CountsStay meetings.old meetings.new) }
    ensures fault { IfErr result (λ found. found ≡ fault.Memory) }
{
    let meeting = meetings.meet(shape)?;
    Ok(Some(Stay {
        meeting,
        since: occasions,
    }))
}
