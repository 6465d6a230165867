//! Jobs: one game of an input each, for one worker.
ghost use Rattle.std.specs.Prelude.{◌≡◌, ◌<◌};
ghost use Rattle.game_core.specs.Games.{IsGameOf};
ghost use Rattle.sgf_core.specs.Limit.{most_bytes};

use go_record::Record;
use std::marker::Model;

/// A game of an input that is to be counted: its number, the bounds of its tree in the input, and
/// its record. It borrows the input.
///
/// Contracts see the input's bytes, the number, the bounds and the record, and that the record is
/// that of the game of this number among the trees of the input. Jobs come from `Games::next_job`
/// alone.
#[derive(Drop)]
pub struct Job<'a> {
    bytes: &'a [u8],
    game: u64,
    at: usize,
    end: usize,
    actions: Record,
}

impl<'a> Model for Job<'a> {
    ghost use Rattle.std.specs.Prelude.{◌<◌};
    ghost use Rattle.game_core.specs.Games.{WrittenGame, IsGameOf};
    ghost use Rattle.sgf_core.specs.Limit.{most_bytes};

    ghost Value = { WrittenGame };

    ghost view = { λ job. record {
      bytes = job.bytes.now;
      game = job.game;
      at = job.at;
      end = job.end;
      actions = job.actions;
    } };

    ghost invariant = { λ job. IsGameOf job.bytes.now job.game job.at job.end job.actions
        × (job.game < most_bytes) };
}

impl<'a> Job<'a> {
    /// Makes the job of the game of number `game` in the input `bytes`. Its tree has the bytes from
    /// index `at` on and before index `end`, and its record is `actions`.
    pub(crate) fn new(bytes: &'a [u8], game: u64, at: usize, end: usize, actions: Record) -> Job<'a>
        requires game { IsGameOf bytes.now game at end actions }
        requires few { game < most_bytes }
        ensures { result ≡ record
            { bytes = bytes.now; game = game; at = at; end = end; actions = actions } }
    {
        Job {
            bytes,
            game,
            at,
            end,
            actions,
        }
    }

    /// Returns the number of the game: how many games come before it in the input.
    pub fn game(&self) -> u64
        ensures number { result ≡ self.now.game }
        ensures few { result < most_bytes }
    {
        self.game
    }

    /// Returns the byte index, in the whole input, of the first parenthesis of the game's tree.
    pub fn at(&self) -> usize
        ensures { result ≡ self.now.at }
    {
        self.at
    }

    /// Returns the byte index, in the whole input, after the last parenthesis of the game's tree.
    pub fn end(&self) -> usize
        ensures { result ≡ self.now.end }
    {
        self.end
    }

    /// Returns the bytes of the whole input.
    pub fn bytes(&self) -> &'a [u8]
        ensures { result.now ≡ self.now.bytes }
    {
        self.bytes
    }

    /// Returns the record of the game.
    pub fn record(&self) -> &Record
        ensures value { result.now ≡ self.now.actions }
        ensures game { IsGameOf
            self.now.bytes self.now.game self.now.at self.now.end self.now.actions }
        ensures few { self.now.game < most_bytes }
    {
        &self.actions
    }

    /// Turns the job into the record of its game. It takes no memory.
    pub fn into_record(self) -> Record
        ensures value { result ≡ self.entry.actions }
        ensures game { IsGameOf
            self.entry.bytes self.entry.game self.entry.at self.entry.end result }
    {
        self.actions
    }
}
