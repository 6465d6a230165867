//! A worker: it takes jobs from the queue and counts their games until it takes an end, the sign
//! that no job is left. An endpoint is a thread's access to the queue.
ghost use Rattle.slot_table.specs.Passes.{IsPassOf};
ghost use Rattle.table_harvest.specs.Working.{IsReturned};

use crate::working::Worked;
use harvest_core::Gate;
use job_core::{Endpoint, Item};
use probe_core::ProbeOrder;
use shape_core::Kinds;
use slot_table::{Pass, SlotTable};
use std::alloc::Global;
use std::sync::Wait;
use std::thread;

/// What one thread works with: its endpoint at the job queue, the table with a pass (the right to
/// call it), and the gate (what is called before each game).
#[derive(Drop)]
pub struct Worker<'q, 'a, 't, O: ProbeOrder, G: Gate> {
    /// The access to the job queue: by it the worker takes jobs, or the thread that reads adds
    /// them.
    pub endpoint: Endpoint<'q, 'a>,
    /// The table that numbers the patterns.
    pub table: &'t SlotTable<O>,
    /// The worker's right to call the table. For proofs it notes the table's calls.
    pub pass: Pass<O>,
    /// What is called before each game.
    pub gate: &'t G,
    /// The worker's number, from 1; 0 is the thread that reads.
    pub number: usize,
    /// How many workers there are, not counting the thread that reads.
    pub workers: usize,
    /// The kinds of pattern that are counted.
    pub kinds: Kinds,
}

/// What a worker hands back: what it has counted, its endpoint at the job queue, and its pass (its
/// right to call the table).
#[derive(Drop)]
pub struct Returned<'q, 'a, O> {
    pub worked: Worked,
    pub endpoint: Endpoint<'q, 'a>,
    pub pass: Pass<O>,
}

/// Runs a worker: it takes jobs from the queue and counts their games, until it takes an end, and
/// then returns what it has counted, with its endpoint at the queue and its pass. It adds nothing
/// to the queue. It enters into the table only patterns of the games that it took, and marks only
/// these games there (notes them as the least of their patterns). It waits while the queue is
/// empty, and lets other threads run. Once a game was refused it still takes jobs, and drops them.
///
/// The worker's pass (its right to call the table) must be of its table. It takes memory for what
/// it counts, and for the board and the patterns of one game.
pub fn work<'q, 'a, R: Wait, O: ProbeOrder, G: Gate>(
    rt: &R,
    alloc: Global,
    worker: Worker<'q, 'a, '_, O, G>,
) -> Returned<'q, 'a, O>
    requires { IsPassOf worker.table.now worker.pass }
    ensures { IsReturned worker.entry.table.now worker.entry.kinds worker.entry.number
        worker.entry.endpoint worker.entry.pass result }
{
    let Worker {
        endpoint,
        table,
        pass,
        gate,
        number,
        kinds,
        ..
    } = worker;
    let mut endpoint = endpoint;
    let mut pass = pass;
    let mut worked = Worked::begin(alloc, number, kinds);
    for _ in rt.forever() {
        match endpoint.draw(rt) {
            Some(Item::Job(job)) => worked.count(table, &mut pass, gate, &job),
            Some(Item::End) => break,
            None => thread::yield_now(),
        }
    }
    Returned {
        worked,
        endpoint,
        pass,
    }
}
