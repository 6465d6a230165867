//! The games of a collection, counted one after another.
ghost use Rattle.std.specs.Prelude.{◌≡◌, ℕ, ◌+◌, ◌≤◌, length, None};
ghost use Rattle.std.specs.Prelude.{IfErr, OnOk};
ghost use Rattle.sgf_core.specs.Limit.{most_bytes};
ghost use Rattle.shape_core.specs.declared.words.Kinds.{Kinds};
ghost use Rattle.tally_core.specs.Counted.{IsCountFault};
ghost use Rattle.plain_core.specs.Inner.Counting.{CountsUpTo, IsWithin, CountsAll};
ghost use Rattle.plain_core.specs.Inner.Walkers.{IsWalked};
ghost use Rattle.tally_core.specs.declared.faults.TallyFault.TheVariants as tally_fault;

use crate::counts::Counts;
use crate::replays::count_meetings;
use crate::walkers::{WalkedGame, Walker};
use shape_dict::FirstGame;
use std::alloc::Global;
use tally_core::TallyFault;

/// The counts of the games read so far, and how many moves onto empty points these have.
#[derive(Drop)]
pub struct Counter {
    /// How often each of their patterns was there and was played, and its first game.
    pub counts: Counts,
    /// How many moves onto empty points these games have together.
    pub moves: u64,
}

impl Counter {
    ghost use Rattle.std.specs.Prelude.{ℕ, List};
    ghost use Rattle.shape_core.specs.declared.words.Kinds.{Kinds};
    ghost use Rattle.plain_core.specs.Inner.Counting.{CountsUpTo, IsWithin};

    /// Makes a counter of no games yet, with room for about this many `patterns`. If memory for
    /// these is refused, it has no room yet, and takes memory as patterns come.
    pub fn new(alloc: Global, patterns: usize) -> Counter
        ensures counted { (kinds : Kinds) (bytes : List ℕ) → CountsUpTo kinds bytes 0 result }
        ensures within { IsWithin 0 result }
    {
        Counter {
            counts: Counts::with_room(alloc, patterns),
            moves: 0,
        }
    }
}

/// Adds a game that was walked (replayed, and its patterns listed) to `counter`: the counts of its
/// patterns, and its moves onto empty points. `TallyFault::Memory` if memory was refused; some of
/// its patterns may be counted then. No count can pass 2^64 - 1, as the input is small enough.
fn count_walked(counter: &mut Counter, walked: &WalkedGame<'_>) -> Result<(), TallyFault>
    requires small { length walked.now.job.bytes ≤ most_bytes }
    requires walked { (kinds : Kinds) × IsWalked kinds walked.now }
    requires within { IsWithin walked.now.job.at counter.old }
    ensures counted { (kinds : Kinds) → IsWalked kinds walked.now
        → CountsUpTo kinds walked.now.job.bytes walked.now.job.game counter.old → OnOk result
        (CountsUpTo kinds walked.now.job.bytes (walked.now.job.game + 1) counter.new) }
    ensures within { OnOk result (IsWithin walked.now.job.end counter.new) }
    ensures fault { IfErr result (λ found. found ≡ tally_fault.Memory) }
{
    let game = FirstGame::new(Some(walked.job.game()));
    count_meetings(&mut counter.counts, walked.meetings.as_slice(), game)?;
    counter.moves += walked.moves;
    Ok(())
}

/// Reads all games of the walker's input, of which none may have been read yet, and adds them to
/// `counter`. Returns `TallyFault::Sgf` at a fault of syntax, as the reader met it, and
/// `TallyFault::Memory` if memory was refused. The games before the fault stay counted.
pub(crate) fn count_games(walker: &mut Walker<'_>, counter: &mut Counter) -> Result<(), TallyFault>
    requires small { length walker.old.games.bytes ≤ most_bytes }
    requires begins { walker.old.games.report.games ≡ 0 }
    requires no_fault { walker.old.games.fault ≡ None }
    requires none { CountsUpTo walker.old.walk.kinds walker.old.games.bytes 0 counter.old }
    requires within { IsWithin 0 counter.old }
    ensures counted { OnOk result (CountsAll walker.old.walk.kinds
        walker.old.games.bytes walker.new.games.report counter.new) }
    ensures fault { IfErr result (IsCountFault walker.old.games.bytes) }
{
    'game: while let Some(game) = walker.next()? {
        count_walked(counter, &game)?;
    }
    Ok(())
}
