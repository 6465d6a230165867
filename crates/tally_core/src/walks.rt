//! A walk of a game: the patterns that it met, in the order in which they were first met.
ghost use Rattle.std.specs.Prelude.{◌≡◌, ◌≤◌, ◌*◌, [], length, IfOk, IfErr, OnOk};
ghost use Rattle.tally_core.specs.Faults.{IsTallyFault};
ghost use Rattle.tally_core.specs.Walk.{IsWalk, IsAmong, IsSmall};

use crate::blanks::Blank;
use crate::faults::TallyFault;
use crate::game_walks::GameWalk;
use crate::meetings::{Meeting, Meetings};
use go_record::Record;
use shape_core::Kinds;
use std::alloc::Global;
use std::marker::Model;
use std::mem;

/// From this number of actions on, counts of a game may pass 2^64 - 1. A move onto an empty point
/// adds at most 5410 to all counts together.
const MOST_ACTIONS: usize = 3_409_749_366_674_594;

/// Walks one game after another: replays it and lists its patterns. It keeps the memory that it
/// uses, and the patterns of the last game.
#[derive(Drop)]
pub struct Walk {
    alloc: Global,
    /// Makes the empty field for each game. Contracts see it as the kinds of pattern.
    blank: Blank,
    /// The patterns of the last game with their counts; its memory is used again.
    meetings: Meetings,
}

impl Model for Walk {
    ghost use Rattle.tally_core.specs.Walk.{Walked};

    ghost Value = { Walked };

    ghost view = { λ w. record { kinds = w.blank; meetings = w.meetings } };
}

impl Walk {
    ghost use Rattle.shape_core.specs.declared.words.Kinds.{Kinds};

    /// Makes a walk that has walked no game yet. It takes no memory. `kinds` says which kinds of
    /// pattern are counted.
    pub fn begin(alloc: Global, kinds: Kinds) -> Walk
        ensures { result ≡ record { kinds = kinds; meetings = [] } }
    {
        Walk {
            alloc,
            blank: Blank::new(alloc, kinds),
            meetings: Meetings::new(alloc),
        }
    }

    /// Replays a game and lists its patterns, with their counts, in the order in which they are
    /// first met. Returns how many moves onto empty points it has. The list of the game before is
    /// removed, and its memory used again. It takes memory for the board and for the patterns.
    ///
    /// # Errors
    ///
    /// `TallyFault::Memory` if memory was refused, and `TallyFault::Overflow` only if the game has
    /// more actions than any input. After a fault it is not specified what `meetings` returns, and
    /// the walk can be used for another game as before.
    pub fn walk(&mut self, game_record: &Record) -> Result<u64, TallyFault>
        ensures walked { IfOk result (IsWalk self.old.kinds game_record.now self.new.meetings) }
        ensures among { OnOk result (IsAmong self.new.meetings) }
        ensures small { OnOk result (IsSmall (5410 * length game_record.now.actions)
            self.new.meetings) }
        ensures kinds { self.new.kinds ≡ self.old.kinds }
        ensures few { IfOk result (λ moves. moves ≤ length game_record.now.actions) }
        ensures fault { IfErr result (IsTallyFault game_record.now) }
    {
        let actions = game_record.actions();
        if actions.len() >= MOST_ACTIONS {
            return Err(TallyFault::Overflow);
        }
        self.meetings.clear()?;
        let field = self.blank.field(game_record.size())?;
        let meetings = mem::replace(&mut self.meetings, Meetings::new(self.alloc));
        let mut game = GameWalk::begin(self.alloc, field, meetings)?;
        let mut moves = 0;
        for action in actions {
            moves += game.count(*action)?;
            game.act(*action);
        }
        self.meetings = game.finish();
        Ok(moves)
    }

    /// Returns the patterns of the last game, each with its counts. The slice is empty if no game
    /// was walked.
    pub fn meetings(&self) -> &[Meeting]
        ensures { result.now ≡ self.now.meetings }
    {
        self.meetings.as_slice()
    }

    /// Returns the kinds of pattern that are counted.
    pub fn kinds(&self) -> Kinds
        ensures { result ≡ self.now.kinds }
    {
        self.blank.kinds()
    }
}
