//! Ledgers: the counts of a share (what one worker has counted): its games, how many moves they
//! have, and a row of counts for each pattern.
ghost use Rattle.std.specs.Prelude.{◌≡◌, ◌+◌, ◌^◌, ◌<◌, ◌≤◌, IfSome, IfNone};
ghost use Rattle.sgf_core.specs.Limit.{most_bytes};
ghost use Rattle.table_shares.specs.Raising.{weight_of, weight_among};
ghost use Rattle.table_shares.specs.Inner.Raising.{AreRowed, AreRaised};

use crate::rows::{Rows, with_counts};
use harvest_faults::HarvestFault;
use probe_core::Answer;
use tally_core::Meeting;

/// The games that a worker has counted, in the order in which they were added; how many moves they
/// have; and their patterns' rows (one pattern's counts each).
#[derive(Drop)]
pub(crate) struct Ledger {
    pub games: Vec<u64>,
    pub moves: u64,
    pub rows: Rows,
}

/// Returns the sum of all counts of a game's meetings (its patterns with their counts), or None if
/// it passes 2^64 - 1.
fn weight(meetings: &[Meeting]) -> Option<u64>
    ensures some { IfSome result (λ total. total ≡ weight_among meetings.now) }
    ensures none { IfNone result (2 ^ 64 ≤ weight_among meetings.now) }
{
    let mut total: u64 = 0;
    for meeting in meetings {
        total = with_counts(total, meeting.there, meeting.played)?;
    }
    Some(total)
}

/// Adds the counts of each meeting (a pattern that the game has, with its counts) to the row of
/// that pattern. `answers[i]` is the table's answer for `meetings[i]`: the number (slot) of its
/// row. `game` is the number of the game.
fn raise_all(rows: &mut Rows, meetings: &[Meeting], answers: &[Answer], game: u64)
    requires rows { AreRowed meetings.now answers.now rows.old }
    requires game { game < most_bytes }
    requires fits { weight_of rows.old + weight_among meetings.now < 2 ^ 64 }
    ensures { AreRaised meetings.now meetings.now answers.now game rows.old rows.new }
{
    for (i, meeting) in meetings.iter().enumerate() {
        rows.raise(answers[i], *meeting, game);
    }
}

impl Ledger {
    ghost use Rattle.std.specs.Prelude.{◌≡◌, ◌<◌, OnOk, OnErr, IfErr};
    ghost use Rattle.sgf_core.specs.Limit.{most_bytes};
    ghost use Rattle.table_shares.specs.Inner.Ledgers.{totals_of, CountsIn, IsCountFault};
    ghost use Rattle.table_shares.specs.Inner.Raising.{AreRowed};

    /// Adds a game, whose number is below 2^28, with its moves and `meetings` (its patterns with
    /// their counts). `answers[i]` is the table's answer for `meetings[i]`: the pattern's number.
    /// Each of these numbers must have a row.
    ///
    /// # Errors
    ///
    /// `Overflow` if the moves or all counts together would pass 2^64 - 1; `Memory` if memory was
    /// refused. After either the ledger is as it was.
    pub fn count(
        &mut self,
        game: u64,
        moves: u64,
        meetings: &[Meeting],
        answers: &[Answer],
    ) -> Result<(), HarvestFault>
        requires rows { AreRowed meetings.now answers.now self.old.rows }
        requires game { game < most_bytes }
        ensures ok { OnOk result (CountsIn game moves meetings.now answers.now
            (totals_of self.old) (totals_of self.new)) }
        ensures err { OnErr result (totals_of self.new ≡ totals_of self.old) }
        ensures fault { IfErr result (IsCountFault moves meetings.now (totals_of self.old)) }
    {
        let Some(moves) = self.moves.checked_add(moves) else {
            return Err(HarvestFault::Overflow);
        };
        let Some(added) = weight(meetings) else {
            return Err(HarvestFault::Overflow);
        };
        if self.rows.weight().checked_add(added).is_none() {
            return Err(HarvestFault::Overflow);
        }
        self.games.push(game)?;
        raise_all(&mut self.rows, meetings, answers, game);
        self.moves = moves;
        Ok(())
    }
}
