//! Gates: what a worker calls before it counts each game.

/// Is called before each game is counted, for a test or a display of progress. A gate changes no
/// result.
pub trait Gate: Sync {
    /// Learns that worker `worker` is about to count game `game`. Both are numbered from 0; worker
    /// 0 is the thread that reads.
    fn at(&self, worker: usize, game: u64);
}

/// A gate that does nothing.
#[derive(Clone, Copy, Debug, PartialEq, Eq)]
pub struct FreeGate;

impl Gate for FreeGate {
    fn at(&self, worker: usize, game: u64) {
        let _ = (worker, game);
    }
}
