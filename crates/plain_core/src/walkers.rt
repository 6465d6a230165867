//! Games that are read and walked before they are counted.
ghost use Rattle.std.specs.Prelude.{◌≡◌, ◌<◌, ◌≤◌, ◌^◌, ℕ, length, None, IfOk, IfErr, IfSome};
ghost use Rattle.std.specs.Prelude.{IfNone, OnOk, false};
ghost use Rattle.sgf_core.specs.declared.faults.SgfFault.TheVariants as sgf;
ghost use Rattle.game_core.specs.Reading.{HasNoGame};
ghost use Rattle.tally_core.specs.Counted.{IsCountFault};
ghost use Rattle.tally_core.specs.Faults.{reading_fault};
ghost use Rattle.plain_core.specs.Inner.Walkers.{IsNextWalked};
ghost use Rattle.tally_core.specs.declared.faults.TallyFault.TheVariants as tally_fault;
ghost use Rattle.sgf_core.specs.Limit.{most_bytes};

use game_core::{Games, Job, Report};
use go_record::few_actions;
use sgf_core::few_values;
use shape_core::Kinds;
use std::alloc::Global;
use tally_core::{Meeting, TallyFault, Walk};

/// A game of an input that was walked (replayed, and its patterns listed): its job (number, bounds
/// in the input and record), how many moves onto empty points it has, and its patterns with their
/// counts.
#[derive(Drop)]
pub struct WalkedGame<'a> {
    pub job: Job<'a>,
    pub moves: u64,
    pub meetings: Vec<Meeting>,
}

/// Reads the games of an input one after another, and walks each: replays it, and lists the
/// patterns that it meets.
#[derive(Drop)]
pub struct Walker<'a> {
    pub alloc: Global,
    /// The reader of the input's games.
    pub games: Games<'a>,
    /// Replays each game, and keeps the patterns of the last one.
    pub walk: Walk,
}

impl<'a> Walker<'a> {
    /// Makes a walker at the beginning of the input `bytes`, for patterns of these `kinds`. It
    /// takes no memory. `TallyFault::Sgf` with `SgfFault::TooLarge` if the input has more than 2^28
    /// bytes.
    pub fn begin(alloc: Global, kinds: Kinds, bytes: &'a [u8]) -> Result<Walker<'a>, TallyFault>
        ensures kinds { IfOk result (λ walker. walker.walk.kinds ≡ kinds) }
        ensures games { IfOk result (λ walker. walker.games ≡ record {
          bytes = bytes.now;
          from = 0;
          report = record { games = 0; others = 0; refused = 0 };
          fault = None;
          ended = false;
        }) }
        ensures small { OnOk result (length bytes.now ≤ most_bytes) }
        ensures fault { IfErr result (IsCountFault bytes.now) }
        ensures large { most_bytes < length bytes.now
            → IfErr result (λ found. found ≡ tally_fault.Sgf sgf.TooLarge) }
    {
        let games = Games::new(bytes)?;
        Ok(Walker {
            alloc,
            games,
            walk: Walk::begin(alloc, kinds),
        })
    }

    /// Returns how many of the trees read so far are games of Go, are of other games, and are
    /// refused.
    pub fn report(&self) -> Report
        ensures { result ≡ self.now.games.report }
    {
        self.games.report()
    }

    /// Reads and walks the next game, or returns None if none is left. Trees of other games and
    /// those with a fault in their record are counted in the report and skipped. It takes memory
    /// for the game's tree, its record and its patterns. `TallyFault::Memory` if that is refused,
    /// `TallyFault::Sgf` at a fault of syntax. It must not be called again after the reader met a
    /// fault.
    pub fn next(&mut self) -> Result<Option<WalkedGame<'a>>, TallyFault>
        requires small { length self.old.games.bytes ≤ most_bytes }
        requires no_fault { self.old.games.fault ≡ None }
        ensures bytes { self.new.games.bytes ≡ self.old.games.bytes }
        ensures kinds { self.new.walk.kinds ≡ self.old.walk.kinds }
        ensures walked { IfOk result (λ found. IfSome found
            (IsNextWalked self.old.walk.kinds self.old.games self.new.games)) }
        ensures none { IfOk result (λ found. IfNone found
            (HasNoGame self.old.games self.new.games)) }
        ensures no_fault { OnOk result (self.new.games.fault ≡ None) }
        ensures fault { IfErr result (IsCountFault self.old.games.bytes) }
        ensures met { IfErr result (λ found. IfSome self.new.games.fault
            (λ met. found ≡ reading_fault met)) }
    {
        // For the proof: a record has no more actions than its main line has values, and the main
        // line has fewer values than the tree has bytes.
        few_actions();
        few_values();
        let Some(job) = self.games.next_job(self.alloc)? else {
            return Ok(None);
        };
        let moves = self.walk.walk(job.record())?;
        let mut meetings = Vec::new(self.alloc);
        meetings.extend_from_slice(self.walk.meetings())?;
        Ok(Some(WalkedGame {
            job,
            moves,
            meetings,
        }))
    }
}
