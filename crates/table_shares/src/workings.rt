//! Buffers that a share (what one worker has counted) needs to count a game, used again for each
//! game. A pass is the right to call the table.
ghost use Rattle.std.specs.Prelude.{◌≡◌, ◌^◌, length, OnOk, IfErr};
ghost use Rattle.table_shares.specs.Inner.Making.{AreBelow, HaveRows, Gained, IsMakingFault};

use crate::entering::{enter_keys, list_keys, refused};
use crate::rows::Rows;
use go_record::Record;
use harvest_faults::HarvestFault;
use probe_core::{Answer, Key, ProbeOrder};
use shape_core::Kinds;
use slot_table::{Pass, SlotTable};
use std::alloc::Global;
use tally_core::{Meeting, Walk};

/// Makes a row with counts of 0 for each of a game's patterns that got a number in the table,
/// unless the number has a row. `answers[i]` is the table's answer for `meetings[i]`, a pattern of
/// the game with its counts. `Stranger` if a number's row is of another pattern; `Memory` if memory
/// was refused. Rows made before stay.
fn make_all(rows: &mut Rows, meetings: &[Meeting], answers: &[Answer]) -> Result<(), HarvestFault>
    requires length { length answers.now ≡ length meetings.now }
    requires numbers { AreBelow (2 ^ 22) answers.now }
    ensures gained { Gained meetings.now answers.now rows.old rows.new }
    ensures made { OnOk result (HaveRows meetings.now answers.now (length answers.now) rows.new) }
    ensures fault { IfErr result (IsMakingFault meetings.now answers.now rows.new) }
{
    for (i, found) in answers.iter().enumerate() {
        if let Err(fault) = rows.make(*found, meetings[i].shape) {
            return Err(fault);
        }
    }
    Ok(())
}

/// What is worked out for one game: its walk (its replay, with the patterns that it met), the keys
/// of these patterns and the table's answers for them.
#[derive(Drop)]
pub(crate) struct Workings {
    pub walk: Walk,
    keys: Vec<Key>,
    pub answers: Vec<Answer>,
}

impl Workings {
    ghost use Rattle.std.specs.Prelude.{◌≡◌, IfOk, IfErr, OnOk};
    ghost use Rattle.slot_table.specs.Passes.{IsPassOf};
    ghost use Rattle.table_shares.specs.Adding.{IsPrepareFault, IsEntryOf, IsRowed, IsRowedAfter};
    ghost use Rattle.gather_core.specs.Entering.{EntersOnly};
    ghost use Rattle.table_shares.specs.Inner.Adding.{HasFresh, IsPrepared};

    /// Makes workings before any game, for patterns of these `kinds`. It takes no memory.
    pub fn begin(alloc: Global, kinds: Kinds) -> Workings
        ensures { result.walk.kinds ≡ kinds }
    {
        Workings {
            walk: Walk::begin(alloc, kinds),
            keys: Vec::new(alloc),
            answers: Vec::new(alloc),
        }
    }

    /// Replays a game to list its patterns with their counts, enters them into the table, and makes
    /// a row in `rows` for each number that they got and that has none. `game` is the number of the
    /// game, which `Full` names. Returns how many moves onto empty points the game has.
    ///
    /// # Errors
    ///
    /// `Full` if no number is free for a pattern, `Stranger` if a number's row is of another
    /// pattern; `Overflow` if the game has more actions than any input; `Memory` if memory was
    /// refused. After each the old rows are as they were.
    pub fn prepare<O: ProbeOrder>(
        &mut self,
        rows: &mut Rows,
        table: &SlotTable<O>,
        pass: &mut Pass<O>,
        game: u64,
        game_record: &Record,
    ) -> Result<u64, HarvestFault>
        requires { IsPassOf table.now pass.old }
        ensures pass { IsPassOf table.now pass.new }
        ensures rowed { OnOk result (EntersOnly table.now.slots (IsEntryOf self.old.walk.kinds
            game_record.now (IsRowed rows.new)) pass.old pass.new) }
        ensures enters { IfErr result (λ found. EntersOnly table.now.slots
            (IsEntryOf self.old.walk.kinds game_record.now (IsRowedAfter found rows.new))
            pass.old pass.new) }
        ensures kinds { self.new.walk.kinds ≡ self.old.walk.kinds }
        ensures fresh { HasFresh table.now.slots pass.new.seen self.old.walk.kinds game_record.now
            rows.old rows.new }
        ensures ok { IfOk result (IsPrepared table.now.slots pass.new.seen self.old.walk.kinds
            game_record.now self.new.walk.meetings self.new.answers.items rows.new) }
        ensures fault { IfErr result (IsPrepareFault table.now.slots pass.new.seen game
            self.old.walk.kinds game_record.now rows.new) }
    {
        let moves = self.walk.walk(game_record)?;
        let meetings = self.walk.meetings();
        list_keys(&mut self.keys, meetings)?;
        enter_keys(table, pass, self.keys.as_slice(), &mut self.answers)?;
        let answers = self.answers.as_slice();
        // For the proof alone: a table has at most 2^22 numbers (slots).
        let _ = table.capacity().slots();
        make_all(rows, meetings, answers)?;
        match refused(answers) {
            Some(place) => Err(HarvestFault::Full {
                game,
                word: meetings[place].shape.word(),
            }),
            None => Ok(moves),
        }
    }
}
