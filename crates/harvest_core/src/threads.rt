//! The threads of a count, one that reads and the workers, and what they have counted together.
ghost use Rattle.std.specs.Prelude.{◌≡◌, ◌+◌, [], All, length, IfOk, IfErr};
ghost use Rattle.job_core.specs.Which.{id_of};
ghost use Rattle.job_core.specs.Rule.{all_parts};
ghost use Rattle.harvest_faults.specs.declared.faults.HarvestFault.TheVariants as fault;
ghost use Rattle.harvest_core.specs.Inner.Dealt.{IsReadingOf};
ghost use Rattle.harvest_core.specs.Inner.Threads.{reader_of, IsFresh, IsBackOf, HasTaken};
ghost use Rattle.harvest_core.specs.Inner.Threads.{IsJoinable, AreThreadCounts};
ghost use Rattle.harvest_core.specs.Harvest.{IsCountRefused};

use crate::gates::Gate;
use crate::reading::{Reading, read};
use crate::workers::{Shared, Worker};
use gather_core::WordShare;
use harvest_faults::HarvestFault;
use job_core::{Endpoint, Games};
use std::alloc::AllocError;
use std::sync::Wait;
use std::thread;
use std::thread::Threads;
use tally_core::Report;

/// What all threads have counted, once all games of the input were read.
#[derive(Drop)]
pub(crate) struct ThreadCounts {
    /// What each thread has counted.
    pub shares: Vec<WordShare>,
    /// How many trees of the input are games of Go, are of other games, and are refused.
    pub report: Report,
}

/// What a worker has before its thread begins: its number and its endpoint, at which it draws from
/// the queue. The thread then takes memory for what it counts.
#[derive(Drop)]
struct Seat<'q, 'a> {
    number: usize,
    endpoint: Endpoint<'q, 'a>,
}

/// Makes the seats of the workers beside the thread that reads: for each its number, from 1, and an
/// endpoint of the queue split off `endpoint`.
fn worker_seats<'q, 'a>(
    shared: &Shared<'q, 'a>,
    endpoint: &mut Endpoint<'q, 'a>,
) -> Result<Vec<Seat<'q, 'a>>, AllocError>
    requires { endpoint.old ≡ reader_of shared.now all_parts }
    ensures endpoint { endpoint.new ≡ reader_of shared.now endpoint.new.parts }
    ensures parts { IfOk result (λ seats. endpoint.new.parts + length seats.items ≡ all_parts) }
    ensures fresh { IfOk result (λ seats. All (IsFresh shared.now) seats.items) }
{
    let mut seats = Vec::new(shared.alloc);
    for number in 1..usize::from(shared.workers) {
        let endpoint = endpoint.another();
        seats.push(Seat { number, endpoint })?;
    }
    Ok(seats)
}

/// Starts a worker on each of `seats` (its number and its endpoint of the queue), in a thread of
/// its own if one can be started, and returns the workers when each has drawn an end (the sign that
/// no job is left). A worker for which no thread can be started draws only its end, after another
/// worker has drawn one.
fn count_beside<'q, 'a, R: Threads + Wait + Sync, G: Gate>(
    rt: &R,
    shared: &Shared<'_, '_>,
    gate: &G,
    seats: Vec<Seat<'q, 'a>>,
) -> Result<Vec<Worker<'q, 'a>>, AllocError>
    requires { All (IsFresh shared.now) seats.items }
    ensures back { IfOk result (λ all. All (IsBackOf shared.now) all.items) }
    ensures each { IfOk result (λ all. length all.items ≡ length seats.entry.items) }
{
    let one = |seat| -> _
        requires { IsFresh shared.now seat }
        ensures { IsBackOf shared.entry.now result }
    {
        let Seat { number, endpoint } = seat;
        Worker::begin(shared, number, endpoint).work(rt, shared, gate)
    };
    thread::map_vec(rt, seats, &one)
}

/// Merges the endpoints of all workers into `endpoint`, and returns the workers' shares (what each
/// has counted).
///
/// # Errors
///
/// `Memory` if memory was refused, here or to a worker that could not count a game then.
fn take_up<'q, 'a>(
    shared: &Shared<'q, 'a>,
    endpoint: &mut Endpoint<'q, 'a>,
    all: Vec<Worker<'q, 'a>>,
) -> Result<Vec<WordShare>, HarvestFault>
    requires queue { endpoint.old.queue ≡ id_of shared.now.queue.now }
    requires back { All (IsBackOf shared.now) all.items }
    ensures taken { IfOk result (λ shares. HasTaken shared.now endpoint.old (length all.entry.items)
        [] endpoint.new shares.items) }
    ensures fault { IfErr result (λ found. found ≡ fault.Memory) }
{
    let mut shares = Vec::new(shared.alloc);
    for back in all {
        let Worker {
            endpoint: theirs,
            counted,
            ..
        } = back;
        endpoint.take_up(theirs);
        shares.push(counted?)?;
    }
    Ok(shares)
}

/// Puts together what the workers and the thread that reads have counted, a share for each. Each
/// game of the input is in these shares once, as the contracts of their endpoints prove together.
///
/// # Errors
///
/// `Sgf` with the input's first fault of syntax; `Memory` if memory was refused.
fn joined<'q, 'a>(
    shared: &Shared<'q, 'a>,
    reading: Reading<'q, 'a>,
    all: Vec<Worker<'q, 'a>>,
) -> Result<ThreadCounts, HarvestFault>
    requires reading { IsJoinable shared.now (length all.items) reading }
    requires back { All (IsBackOf shared.now) all.items }
    ensures counts { IfOk result (AreThreadCounts shared.now.bytes.now shared.now.kinds) }
    ensures fault { IfErr result (IsCountRefused shared.now.bytes.now) }
{
    let Reading {
        own,
        report,
        outcome,
    } = reading;
    outcome?;
    let Worker {
        endpoint,
        counted,
        ..
    } = own;
    let mut endpoint = endpoint;
    let mut shares = take_up(shared, &mut endpoint, all)?;
    shares.push(counted?)?;
    // For the proof alone: no job is left in the queue, so each game was drawn once.
    endpoint.settle();
    Ok(ThreadCounts { shares, report })
}

/// Counts all games of an input by words, in `shared.workers` threads if they can be started.
/// `games` must be at the input's beginning, and `endpoint` the first of a new queue, not used yet.
///
/// # Errors
///
/// `Sgf` with the input's first fault of syntax; `Memory` if memory was refused.
pub(crate) fn count_all<'q, 'a, R: Threads + Wait + Sync, G: Gate>(
    rt: &R,
    shared: &Shared<'q, 'a>,
    gate: &G,
    games: Games<'a>,
    endpoint: Endpoint<'q, 'a>,
) -> Result<ThreadCounts, HarvestFault>
    requires endpoint { endpoint ≡ reader_of shared.now all_parts }
    requires games { (games.bytes ≡ shared.now.bytes.now) × (games.report.games ≡ 0) }
    ensures counts { IfOk result (AreThreadCounts shared.now.bytes.now shared.now.kinds) }
    ensures fault { IfErr result (IsCountRefused shared.now.bytes.now) }
{
    let mut endpoint = endpoint;
    let seats = worker_seats(shared, &mut endpoint)?;
    let (all, reading) = thread::join(
        rt,
        move || -> Result<Vec<Worker<'_, '_>>, AllocError>
            requires { All (IsFresh shared.now) seats.items }
            ensures back { IfOk result (λ all. All (IsBackOf shared.entry.now) all.items) }
            ensures each { IfOk result (λ all. length all.items ≡ length seats.entry.items) }
        { count_beside(rt, shared, gate, seats) },
        move || -> Reading<'_, '_>
            requires games { (games.bytes ≡ shared.now.bytes.now) × (games.report.games ≡ 0) }
            requires endpoint { endpoint ≡ reader_of shared.now endpoint.parts }
            ensures { IsReadingOf shared.entry.now endpoint.entry result }
        { read(rt, shared, gate, games, Worker::begin(shared, 0, endpoint)) },
    );
    joined(shared, reading, all?)
}
