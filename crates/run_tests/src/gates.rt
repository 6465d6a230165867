//! Gates (called when a thread begins a game) that hold threads back: games are in work at once,
//! and the thread that reads helps.
use crate::harvests::{CREWS, Way, collection, counted_by};
use harvest_core::Gate;
use std::alloc::Global;
use std::sync::Wait;
use std::sync::atomic::{AtomicU64, Ordering};
use std::test::Fail;
use std::thread;
use std::thread::Threads;

/// How often a gate checks its condition before it gives up. A program that works one game after
/// another fails by that, and does not hang.
const LOOKS: u64 = 1 << 24;

/// Makes the thread that begins the first game of all wait until another game has begun, or until
/// it has checked that `LOOKS` times. It is for ten games.
#[derive(Drop)]
struct TwoAtOnce {
    /// The greatest number that a worker has.
    last_worker: usize,
    /// How often each game was begun: that of the number g in the bits 4g to 4g + 3.
    begun: AtomicU64,
    /// How often a worker or a game was named that there is not.
    strange: AtomicU64,
    /// Whether the first thread saw another game begin: then 1.
    together: AtomicU64,
}

impl Gate for TwoAtOnce {
    fn at(&self, worker: usize, game: u64) {
        if worker > self.last_worker || game >= 10 {
            self.strange.fetch_add(1, Ordering::SeqCst);
            return;
        }
        let own = 1 << (4 * game);
        if self.begun.fetch_add(own, Ordering::SeqCst) > 0 {
            return;
        }
        for _ in 0..LOOKS {
            if self.begun.load(Ordering::SeqCst) != own {
                self.together.store(1, Ordering::SeqCst);
                return;
            }
            thread::yield_now();
        }
    }
}

/// Whether two games were in work at once, and each of the ten was begun once, by a worker that
/// there is.
fn was_together(gate: &TwoAtOnce) -> bool {
    gate.begun.load(Ordering::SeqCst) == 0x11_1111_1111
        && gate.strange.load(Ordering::SeqCst) == 0
        && gate.together.load(Ordering::SeqCst) == 1
}

/// Whether two of the ten games in `bytes` were in work at once while this number of workers
/// counted them, each was begun once, and there are three patterns.
fn is_together<R: Threads + Wait + Sync>(
    rt: &R,
    alloc: Global,
    way: Way,
    workers: u8,
    bytes: &[u8],
) -> bool {
    let gate = TwoAtOnce {
        last_worker: usize::from(workers),
        begun: AtomicU64::new(0),
        strange: AtomicU64::new(0),
        together: AtomicU64::new(0),
    };
    counted_by(rt, alloc, way, workers, bytes, &gate) == Ok((10, 3)) && was_together(&gate)
}

#[test]
fn two_games_are_in_work_at_once(rt: HostRuntime) -> Result<(), Fail> {
    let bytes = collection(rt.alloc(), 5)?;
    // A single worker over a table has all of so few games: the queue has room for them.
    for workers in [2, 7, 64] {
        assert!(rt;
            is_together(&rt, rt.alloc(), Way::Words, workers, &bytes),
            "{workers} workers"
        );
        assert!(rt;
            is_together(&rt, rt.alloc(), Way::Table, workers, &bytes),
            "{workers} workers over a table"
        );
    }
    Ok(())
}

/// Makes each worker wait until the thread that reads (worker 0) counts a game, or until a worker
/// has checked that `LOOKS` times.
#[derive(Drop)]
struct ReaderHelps {
    /// How many games the thread that reads has begun.
    helped: AtomicU64,
    /// How many workers have waited in vain.
    given_up: AtomicU64,
}

impl ReaderHelps {
    /// Whether no worker has to wait any more.
    fn is_open(&self) -> bool {
        self.helped.load(Ordering::SeqCst) > 0 || self.given_up.load(Ordering::SeqCst) > 0
    }
}

impl Gate for ReaderHelps {
    fn at(&self, worker: usize, game: u64) {
        let _ = game;
        if worker == 0 {
            self.helped.fetch_add(1, Ordering::SeqCst);
            return;
        }
        for _ in 0..LOOKS {
            if self.is_open() {
                return;
            }
            thread::yield_now();
        }
        self.given_up.fetch_add(1, Ordering::SeqCst);
    }
}

/// Whether the thread that reads counts some of the 300 games in `bytes` while the workers wait for
/// that, nobody waits in vain, and there are three patterns.
fn is_helped<R: Threads + Wait + Sync>(
    rt: &R,
    alloc: Global,
    way: Way,
    workers: u8,
    bytes: &[u8],
) -> bool {
    let gate = ReaderHelps {
        helped: AtomicU64::new(0),
        given_up: AtomicU64::new(0),
    };
    counted_by(rt, alloc, way, workers, bytes, &gate) == Ok((300, 3))
        && gate.helped.load(Ordering::SeqCst) > 0
        && gate.given_up.load(Ordering::SeqCst) == 0
}

#[test]
fn the_reader_helps(rt: HostRuntime) -> Result<(), Fail> {
    let bytes = collection(rt.alloc(), 150)?;
    for workers in CREWS {
        assert!(rt;
            is_helped(&rt, rt.alloc(), Way::Words, workers, &bytes),
            "{workers} workers"
        );
        assert!(rt;
            is_helped(&rt, rt.alloc(), Way::Table, workers, &bytes),
            "{workers} workers over a table"
        );
    }
    Ok(())
}
