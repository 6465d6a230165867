//! The walk of one game: it is replayed action by action, and its patterns are counted.
ghost use Rattle.std.specs.Prelude.{◌≡◌, ℕ, IfErr, IfOk, OnOk};
ghost use Rattle.go_board.specs.Board.{position_of};
ghost use Rattle.go_record.specs.Actions.{IsActionOn};
ghost use Rattle.go_record.specs.Replay.{Does};
ghost use Rattle.tally_core.specs.Walk.{shapes_of, there_among};
ghost use Rattle.tally_core.specs.Inner.Standing.{there_both, AreSides, HaveRoom, IsNewSide};
ghost use Rattle.tally_core.specs.Inner.Standing.{KeepsCounts};
ghost use Rattle.tally_core.specs.Inner.Sight.{Fit, PlayedStays, CountsAction};
ghost use Rattle.tally_core.specs.declared.faults.TallyFault.TheVariants as fault;

use crate::faults::TallyFault;
use crate::meetings::Meetings;
use crate::sides::Side;
use go_board::{Colour, Stone};
use go_record::{Action, apply};
use shape_core::Field;
use std::alloc::Global;

/// A game that is being walked: the board as it is (`field`), the patterns met so far with their
/// counts (`meetings`), and what is stored for each colour to move (`black` and `white`).
///
/// A side stores which square and which diamond each empty point has, and how many moves onto empty
/// points this colour had made when the point got them. How often these two patterns were there
/// since then is not in `meetings` yet: it is added when the point changes, or by `finish`.
///
/// Contracts speak of the counts that `meetings` would have if all this were added now (settled).
#[derive(Drop)]
pub struct GameWalk {
    pub field: Field,
    pub meetings: Meetings,
    pub black: Side,
    pub white: Side,
}

impl GameWalk {
    /// Begins a walk before the first action: `field` is the board then, and the patterns that the
    /// game meets are added to `meetings`. It takes memory for each point of the board.
    ///
    /// # Errors
    ///
    /// `Memory` if memory was refused.
    pub fn begin(alloc: Global, field: Field, meetings: Meetings) -> Result<GameWalk, TallyFault>
        ensures field { IfOk result (λ walk. walk.field ≡ field) }
        ensures meetings { IfOk result (λ walk. walk.meetings ≡ meetings) }
        ensures black { IfOk result (λ walk. IsNewSide walk.field.board.size walk.black) }
        ensures white { IfOk result (λ walk. IsNewSide walk.field.board.size walk.white) }
        ensures fault { IfErr result (λ found. found ≡ fault.Memory) }
    {
        let black = Side::begin(alloc, field.size())?;
        let white = Side::begin(alloc, field.size())?;
        Ok(GameWalk {
            field,
            meetings,
            black,
            white,
        })
    }

    /// If `action` is a move onto an empty point, counts the patterns of all points that are empty
    /// before it as there, those of the point that it fills as played too, and returns 1. Else
    /// returns 0. The board does not change: `act` is called after this.
    ///
    /// # Errors
    ///
    /// `Memory` if memory was refused; the counts are wrong then, so the walk must not be used
    /// again.
    // It is out of line, so that its loops have the processor's registers for themselves.
    #[inline(never)]
    pub fn count(&mut self, action: Action) -> Result<u64, TallyFault>
        requires on_board { IsActionOn self.old.field.board.size action }
        requires sides { AreSides self.old }
        requires room { HaveRoom self.old }
        ensures counted { IfOk result (CountsAction action self.old self.new) }
        ensures sides { OnOk result (AreSides self.new) }
        ensures field { self.new.field ≡ self.old.field }
        ensures fault { IfErr result (λ found. found ≡ fault.Memory) }
    {
        let Action::Move { colour, at } = action else {
            return Ok(0);
        };
        if self.field.cell(at) != Stone::Empty {
            return Ok(0);
        }
        // What counts is inlined for each colour as a constant: no point asks for it again.
        match colour {
            Colour::Black => {
                self.black
                    .count(&mut self.meetings, &self.field, Colour::Black, at)?
            }
            Colour::White => {
                self.white
                    .count(&mut self.meetings, &self.field, Colour::White, at)?
            }
        }
        Ok(1)
    }

    /// Does an action on the board. The points whose pattern words it changes are noted for both
    /// colours: the next move of each onto an empty point looks at them again. It counts nothing.
    pub fn act(&mut self, action: Action)
        requires on_board { IsActionOn self.old.field.board.size action }
        requires sides { AreSides self.old }
        ensures sides { AreSides self.new }
        ensures counts { KeepsCounts self.old self.new }
        ensures size { self.new.field.board.size ≡ self.old.field.board.size }
        ensures kinds { self.new.field.kinds ≡ self.old.field.kinds }
        ensures does { Does self.old.field.board.size action (position_of self.old.field.board)
            (position_of self.new.field.board) }
    {
        apply(&mut self.field, action);
        self.field
            .move_changed(&mut self.black.changed, &mut self.white.changed);
    }

    /// Ends the walk: adds, for each colour, how often the patterns that points had at its last
    /// move onto an empty point were there since the points got them. Returns all patterns of the
    /// game with their counts.
    pub fn finish(self) -> Meetings
        requires sides { AreSides self }
        requires few { Fit (there_both self) }
        ensures shapes { shapes_of result ≡ shapes_of self.meetings }
        ensures there { (shape : ℕ) → there_among result shape ≡ there_both self shape }
        ensures played { PlayedStays self.meetings result }
    {
        let GameWalk {
            field: _,
            meetings,
            black,
            white,
        } = self;
        let mut meetings = meetings;
        black.settle(&mut meetings);
        white.settle(&mut meetings);
        meetings
    }
}
