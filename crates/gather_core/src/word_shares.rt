//! Word shares: what one worker has counted. Its lists name patterns by their words (their codes);
//! the numbers that patterns get in the shared table come later.
ghost use Rattle.std.specs.Prelude.{◌≡◌, ◌+◌, ◌^◌, ◌<◌, ℕ, Some, OnOk};
ghost use Rattle.range_core.specs.Totals.{total_of, together, all_of};
ghost use Rattle.gather_core.specs.Inner.Met.{met_entry, met_entries};

use go_record::Record;
use harvest_faults::HarvestFault;
use range_core::{Lists, PlaceLists};
use shape_core::Kinds;
use shape_dict::{Entry, FirstGame};
use std::alloc::{AllocError, Global};
use std::marker::Model;
use tally_core::{Meeting, Walk};

/// Appends an entry to `lists` with the counts of `meeting`, what a game has met of one pattern,
/// and the game, `first`. Does nothing if both counts are 0.
#[inline(always)]
fn append_one(lists: &mut PlaceLists, meeting: &Meeting, first: FirstGame) -> Result<(), AllocError>
    ensures { OnOk result ((game : ℕ) → first ≡ Some game → (shape : ℕ)
        → total_of shape (all_of lists.new) ≡ together (total_of shape (all_of lists.old))
        (total_of shape (met_entry game meeting.now))) }
{
    if meeting.there == 0 && meeting.played == 0 {
        return Ok(());
    }
    lists.append(Entry {
        shape: meeting.shape,
        there: meeting.there,
        played: meeting.played,
        first,
    })?;
    Ok(())
}

/// Appends what the game numbered `game` has met of all patterns to `lists`, except those whose
/// counts are both 0. It takes memory if lists have no room.
///
/// # Errors
///
/// `AllocError` if memory was refused: some may have been appended then.
fn append_all(lists: &mut PlaceLists, meetings: &[Meeting], game: u64) -> Result<(), AllocError>
    requires { game + 1 < 2 ^ 64 }
    ensures { OnOk result ((shape : ℕ) → total_of shape (all_of lists.new)
        ≡ together (total_of shape (all_of lists.old))
        (total_of shape (met_entries game meetings.now))) }
{
    let first = FirstGame::new(Some(game));
    for meeting in meetings {
        append_one(lists, meeting, first)?;
    }
    Ok(())
}

/// What one worker has counted: games, each with all its patterns, which have no numbers yet.
///
/// Contracts see it as a share, with rows: what it has for a pattern. A pattern may have several
/// rows, all with the number 0.
#[derive(Drop)]
pub struct WordShare {
    worker: usize,
    walk: Walk,
    lists: PlaceLists,
    games: Vec<u64>,
    /// The moves of the games: each has fewer than 2^64.
    moves: u128,
}

impl Model for WordShare {
    ghost use Rattle.std.specs.Prelude.{map, length, ◌*◌, ◌^◌, ◌≤◌};
    ghost use Rattle.range_core.specs.Totals.{all_of};
    ghost use Rattle.gather_core.specs.Shares.{Held};
    ghost use Rattle.gather_core.specs.WordShares.{unnumbered};

    ghost Value = { Held };

    ghost view = { λ w. record {
      worker = w.worker;
      kinds = w.walk.kinds;
      games = w.games.items;
      moves = w.moves;
      rows = map unnumbered (all_of w.lists);
    } };

    ghost invariant = { λ w. w.moves ≤ 2 ^ 64 * length w.games.items };
}

impl WordShare {
    ghost use Rattle.std.specs.Prelude.{◌≡◌, ◌+◌, ◌*◌, ◌^◌, ◌<◌, ◌≤◌, [], length, map};
    ghost use Rattle.std.specs.Prelude.{IfOk, OnOk, IfErr};
    ghost use Rattle.sgf_core.specs.Limit.{most_bytes};
    ghost use Rattle.harvest_faults.specs.declared.faults.HarvestFault.TheVariants as fault;
    ghost use Rattle.range_core.specs.Totals.{all_of};
    ghost use Rattle.range_core.specs.Ranges.{AreDealtBy};
    ghost use Rattle.range_core.specs.Places.{place_ranges, range_of_place};
    ghost use Rattle.gather_core.specs.Shares.{IsShare};
    ghost use Rattle.gather_core.specs.Adding.{IsAdded};
    ghost use Rattle.gather_core.specs.WordShares.{unnumbered};

    /// Makes an empty share (what a worker has counted) for the worker with this number, which
    /// counts these kinds of pattern. Each of its lists, one for each range of places, has room for
    /// `room` entries. It takes memory for that.
    ///
    /// # Errors
    ///
    /// `AllocError` if memory was refused.
    pub fn begin(
        alloc: Global,
        worker: usize,
        kinds: Kinds,
        room: usize,
    ) -> Result<WordShare, AllocError>
        ensures words { IfOk result (λ words. words ≡ record {
          worker = worker;
          kinds = kinds;
          games = [];
          moves = 0;
          rows = [];
        }) }
        ensures share { IfOk result IsShare }
    {
        Ok(WordShare {
            worker,
            walk: Walk::begin(alloc, kinds),
            lists: PlaceLists::new(alloc, room)?,
            games: Vec::new(alloc),
            moves: 0,
        })
    }

    /// Replays the game `game_record`, whose number is `game`, and counts its patterns into the
    /// share. The game must have fewer than 2^64 / 5410 actions, as each game of an input has. It
    /// uses no table of numbers. It takes memory for the game's board, and when a list is full.
    ///
    /// # Errors
    ///
    /// `Memory` if memory was refused. After it some of the game's patterns may be counted, so
    /// nothing is known of the sums any more.
    pub fn add(&mut self, game: u64, game_record: &Record) -> Result<(), HarvestFault>
        requires share { IsShare self.old }
        requires game { game < most_bytes }
        requires few { 5410 * length game_record.now.actions < 2 ^ 64 }
        ensures added { OnOk result (IsAdded game game_record.now self.old self.new) }
        ensures moves { OnOk result
            (self.new.moves ≤ self.old.moves + length game_record.now.actions) }
        ensures share { OnOk result (IsShare self.new) }
        ensures fault { IfErr result (λ found. found ≡ fault.Memory) }
    {
        // For the proof alone: the sides of a board are at most 52.
        let _ = game_record.size().columns();
        let moves = self.walk.walk(game_record)?;
        append_all(&mut self.lists, self.walk.meetings(), game)?;
        self.games.push(game)?;
        self.moves += u128::from(moves);
        Ok(())
    }

    /// Returns the games, in the order in which they were added.
    pub fn games(&self) -> &[u64]
        ensures { result.now ≡ self.now.games }
    {
        self.games.as_slice()
    }

    /// Returns the number of moves onto empty points in the games.
    pub fn moves(&self) -> u128
        ensures { result ≡ self.now.moves }
    {
        self.moves
    }

    /// Returns what was counted, as entries in lists by ranges of places (slots of a hash table).
    pub fn into_lists(self) -> Lists
        ensures rows { map unnumbered (all_of result) ≡ self.rows }
        ensures len { length result ≡ place_ranges }
        ensures dealt { AreDealtBy range_of_place result }
    {
        self.lists.into_lists()
    }
}
