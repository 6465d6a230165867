//! A worker: it draws jobs (a game's number and record) from the queue and counts their games by
//! words (the codes of patterns), until it draws an end (the sign that no job is left).
ghost use Rattle.std.specs.Prelude.{◌≤◌, length};
ghost use Rattle.sgf_core.specs.Limit.{most_bytes};

use crate::gates::Gate;
use gather_core::WordShare;
use harvest_faults::HarvestFault;
use job_core::{Endpoint, Item, Job, Jobs};
use range_core::PLACE_LISTS;
use shape_core::Kinds;
use std::alloc::Global;
use std::sync::Wait;
use std::thread;

/// What the threads of one count share.
#[derive(Drop)]
pub(crate) struct Shared<'q, 'a> {
    pub alloc: Global,
    /// The kinds of pattern that are counted.
    pub kinds: Kinds,
    /// How many threads count, including the one that reads.
    pub workers: u8,
    /// The whole input.
    pub bytes: &'a [u8],
    /// The queue of the input's games.
    pub queue: &'q Jobs<'a>,
    ghost small: { length bytes.now ≤ most_bytes },
}

/// What one thread counts with: its number, its endpoint of the queue and its share.
#[derive(Drop)]
pub(crate) struct Worker<'q, 'a> {
    /// The worker's number, from 0, which is the thread that reads.
    pub number: usize,
    /// Where the worker draws its jobs; the thread that reads also puts them there.
    pub endpoint: Endpoint<'q, 'a>,
    /// What the worker has counted, or why a game was not counted. Then nothing more is counted.
    pub counted: Result<WordShare, HarvestFault>,
}

/// The most entries that a worker's lists have room for at first, all together: 80 MiB.
const MOST_ROOM: usize = 5 << 20;

/// Returns how many patterns games of this many bytes mostly meet, where a pattern counts once for
/// each game that has it: three a byte, but no more than `MOST_ROOM`.
fn likely_meetings(bytes: usize) -> usize {
    bytes.saturating_mul(3).min(MOST_ROOM)
}

impl<'q, 'a> Worker<'q, 'a> {
    ghost use Rattle.std.specs.Prelude.{◌≡◌, ◌<◌, [], ℕ, List, IsTrue};
    ghost use Rattle.harvest_core.specs.Inner.Working.{HasCounted, IsAtWork, GoesOn};
    ghost use Rattle.harvest_core.specs.Inner.Dealt.{CountsGame};

    /// Makes the worker of this number, at this endpoint. It takes memory for its lists: for the
    /// patterns of as many games as it is likely to draw, and a quarter more, since the thread that
    /// reads draws fewer. If that is refused, `counted` is `Memory`.
    pub(crate) fn begin(
        shared: &Shared<'_, '_>,
        number: usize,
        endpoint: Endpoint<'q, 'a>,
    ) -> Worker<'q, 'a>
        ensures endpoint { result.endpoint ≡ endpoint.entry }
        ensures counted { HasCounted shared.now [] result.counted }
    {
        let even = shared.bytes.len() / usize::from(shared.workers.max(1));
        let room = likely_meetings(even.saturating_add(even / 4)) / PLACE_LISTS;
        let counted = match WordShare::begin(shared.alloc, number, shared.kinds, room) {
            Ok(words) => Ok(words),
            Err(_refused) => Err(HarvestFault::Memory),
        };
        Worker {
            number,
            endpoint,
            counted,
        }
    }

    /// Counts the game of a job, after it has called the gate. If an earlier game could not be
    /// counted, the job is dropped. It takes memory for the patterns of the game, and for its board
    /// and walk. If that is refused, `counted` is `Memory` from then on.
    pub(crate) fn count<G: Gate>(&mut self, shared: &Shared<'_, '_>, gate: &G, job: &Job<'_>)
        requires job { job.now.bytes ≡ shared.now.bytes.now }
        requires counted { (games : List ℕ) × HasCounted shared.now games self.old.counted }
        ensures endpoint { self.new.endpoint ≡ self.old.endpoint }
        ensures counted { CountsGame shared.now job.now.game self.old self.new }
    {
        // For the proof alone: the contract speaks of `shared`.
        let _ = shared;
        let Ok(words) = &mut self.counted else {
            return;
        };
        gate.at(self.number, job.game());
        if let Err(fault) = words.add(job.game(), job.record()) {
            self.counted = Err(fault);
        }
    }

    /// Draws an item and, if it is a job, counts its game. Returns whether the item was an end.
    /// While the queue is empty it lets other threads run.
    pub(crate) fn turn<R: Wait, G: Gate>(
        &mut self,
        rt: &R,
        shared: &Shared<'_, '_>,
        gate: &G,
    ) -> bool
        requires work { IsAtWork shared.now self.old }
        ensures on { GoesOn shared.now self.old self.new }
        ensures end { IsTrue result → 0 < self.new.endpoint.ends_drawn }
    {
        match self.endpoint.draw(rt) {
            Some(Item::Job(job)) => self.count(shared, gate, &job),
            Some(Item::End) => return true,
            None => thread::yield_now(),
        }
        false
    }

    /// Draws items and counts their games until it draws an end, and returns the worker. It waits
    /// for the thread that puts items into the queue.
    pub(crate) fn work<R: Wait, G: Gate>(
        self,
        rt: &R,
        shared: &Shared<'_, '_>,
        gate: &G,
    ) -> Worker<'q, 'a>
        requires work { IsAtWork shared.now self }
        ensures on { GoesOn shared.now self.entry result }
        ensures end { 0 < result.endpoint.ends_drawn }
    {
        let mut worker = self;
        for _ in rt.forever() {
            if worker.turn(rt, shared, gate) {
                break;
            }
        }
        worker
    }
}
