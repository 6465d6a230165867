//! Shares: what one worker has counted over the table.
ghost use Rattle.std.specs.Prelude.{◌≡◌, ◌^◌, ◌≤◌, length, IfErr, OnOk, OnErr};
ghost use Rattle.sgf_core.specs.Limit.{most_bytes};

use crate::entering::mark_all;
use crate::ledgers::Ledger;
use crate::rows::Rows;
use crate::share_rows::ShareRows;
use crate::workings::Workings;
use gather_core::Row;
use go_record::Record;
use harvest_faults::HarvestFault;
use probe_core::ProbeOrder;
use shape_core::Kinds;
use slot_table::{Pass, SlotTable};
use std::alloc::Global;
use std::marker::Model;

/// What one worker has counted: which games, how many moves, and a row of counts for each pattern,
/// under the number (slot) that the pattern has in the shared table.
///
/// Contracts see the worker, the kinds of pattern, the games in the order in which they were added,
/// their moves, and the rows in the order in which they were made. The type says that the sums of a
/// share are those of its games.
#[derive(Drop)]
pub struct Share {
    worker: usize,
    /// Buffers for the game that is being added, with the kinds of pattern.
    workings: Workings,
    /// The games, their moves and the rows.
    ledger: Ledger,
}

impl Model for Share {
    ghost use Rattle.gather_core.specs.Shares.{Held, IsShare};

    ghost Value = { Held };

    ghost view = { λ s. record {
      worker = s.worker;
      kinds = s.workings.walk.kinds;
      games = s.ledger.games.items;
      moves = s.ledger.moves;
      rows = s.ledger.rows;
    } };

    ghost invariant = { λ s. IsShare (record {
      worker = s.worker;
      kinds = s.workings.walk.kinds;
      games = s.ledger.games.items;
      moves = s.ledger.moves;
      rows = s.ledger.rows;
    }) };
}

impl Share {
    ghost use Rattle.std.specs.Prelude.{◌≡◌, ◌^◌, ◌<◌, ◌++◌, [], length, OnOk, OnErr, IfErr};
    ghost use Rattle.slot_table.specs.Passes.{IsPassOf};
    ghost use Rattle.table_shares.specs.Rows.{row_of, AreOfNumbers};
    ghost use Rattle.gather_core.specs.Shares.{IsShare};
    ghost use Rattle.gather_core.specs.Adding.{IsAdded};
    ghost use Rattle.table_shares.specs.Adding.{HasGrown, IsMarked, IsKept, IsAddFault};
    ghost use Rattle.table_shares.specs.Adding.{IsEntryOf, IsRowed, IsRowedAfter, IsMarkOf};
    ghost use Rattle.gather_core.specs.Entering.{CallsOnly, EntersOnly};

    /// Makes a share without games, for the worker with the number `worker`, which counts patterns
    /// of these kinds. It takes no memory.
    pub fn begin(alloc: Global, worker: usize, kinds: Kinds) -> Share
        ensures { result ≡ record {
          worker = worker;
          kinds = kinds;
          games = [];
          moves = 0;
          rows = [];
        } }
    {
        Share {
            worker,
            workings: Workings::begin(alloc, kinds),
            ledger: Ledger {
                games: Vec::new(alloc),
                moves: 0,
                rows: Rows::begin(alloc),
            },
        }
    }

    /// Returns the number of the worker that counts into the share.
    pub fn worker(&self) -> usize
        ensures { result ≡ self.now.worker }
    {
        self.worker
    }

    /// Returns the numbers of the games, in the order in which they were added.
    pub fn games(&self) -> &[u64]
        ensures games { result.now ≡ self.now.games }
        ensures share { IsShare self.now }
    {
        self.ledger.games.as_slice()
    }

    /// Returns how many moves onto empty points the games have.
    pub fn moves(&self) -> u64
        ensures { result ≡ self.now.moves }
    {
        self.ledger.moves
    }

    /// Returns the row (one pattern's counts) of the pattern in the table's slot `number`, or None
    /// if the share has none. It takes no memory.
    pub fn row_at(&self, number: usize) -> Option<Row>
        ensures row { result ≡ row_of self.now.rows number }
        ensures numbers { AreOfNumbers self.now.rows }
    {
        let made = self.made_rows();
        let place = self.ledger.rows.place(number)?;
        Some(made[place])
    }

    /// Returns the rows (one pattern's counts each), in the order in which they were made. It takes
    /// no memory.
    pub fn made_rows(&self) -> &[Row]
        ensures rows { result.now ≡ self.now.rows }
        ensures numbers { AreOfNumbers self.now.rows }
    {
        self.ledger.rows.as_slice()
    }

    /// Returns an iterator over the rows (one pattern's counts each), by rising numbers. It takes
    /// no memory.
    pub fn rows(&self) -> ShareRows<'_>
        ensures rows { result ≡ record { rows = self.now.rows; from = 0 } }
        ensures numbers { AreOfNumbers self.now.rows }
    {
        // For the proof alone: by the contract of `made_rows` no two rows are of one number.
        let _ = self.made_rows();
        ShareRows::new(&self.ledger.rows)
    }

    /// Adds a game to the share. Each of the game's patterns is entered into the table, and its
    /// counts are added to the share's row under the pattern's number (its slot in the table). At
    /// last the game is marked (noted as the least) at each of these numbers, unless a game that is
    /// no later is marked there.
    ///
    /// No other pattern is entered, and each that got a number has a row of that number. No other
    /// game is marked, and this one only at numbers of rows of its patterns. `pass` (the right to
    /// call the table) must be of the table, and `game`, the game's number, below 2^28.
    ///
    /// # Errors
    ///
    /// `Full` if no number is free for a pattern of the game. It names the first such pattern in
    /// the order in which the game is replayed; each pattern before it has a number and its row.
    /// `Stranger` if the share's row of a pattern's number is of another pattern, as if the share
    /// was counted over another table. `Overflow` if the share's moves or all its counts together
    /// would pass 2^64 - 1, or if the game has more actions than any input. `Memory` if memory was
    /// refused.
    ///
    /// After each the share's games, moves and sums are as they were, and the game is nowhere
    /// marked. Patterns of the game may have got rows without counts, and numbers in the table.
    /// After `Full` and `Overflow` each pattern that was entered and got a number has a row of that
    /// number.
    pub fn add<O: ProbeOrder>(
        &mut self,
        table: &SlotTable<O>,
        pass: &mut Pass<O>,
        game: u64,
        game_record: &Record,
    ) -> Result<(), HarvestFault>
        requires pass { IsPassOf table.now pass.old }
        requires game { game < most_bytes }
        ensures pass { IsPassOf table.now pass.new }
        ensures added { OnOk result (IsAdded game game_record.now self.old self.new) }
        ensures grown { OnOk result
            (HasGrown table.now.slots pass.new.seen game_record.now self.old self.new) }
        ensures marked { OnOk result
            (IsMarked table.now.slots pass.new.seen game game_record.now self.old self.new) }
        ensures calls { OnOk result (CallsOnly table.now.slots
            (IsEntryOf self.old.kinds game_record.now (IsRowed self.new.rows))
            (IsMarkOf table.now.slots pass.new.seen self.old.kinds game_record.now self.new.rows
            game) pass.old pass.new) }
        ensures kept { OnErr result
            (IsKept table.now.slots pass.new.seen game_record.now self.old self.new) }
        ensures enters { IfErr result (λ found. EntersOnly table.now.slots (IsEntryOf self.old.kinds
            game_record.now (IsRowedAfter found self.new.rows)) pass.old pass.new) }
        ensures fault { IfErr result
            (IsAddFault table.now.slots pass.new.seen game game_record.now self.old self.new) }
    {
        // For the proof alone: the sides of a board are at most 52.
        let _ = game_record.size().columns();
        let ledger = &mut self.ledger;
        let moves = self
            .workings
            .prepare(&mut ledger.rows, table, pass, game, game_record)?;
        let meetings = self.workings.walk.meetings();
        let answers = self.workings.answers.as_slice();
        ledger.count(game, moves, meetings, answers)?;
        mark_all(table, pass, answers, game);
        Ok(())
    }
}
