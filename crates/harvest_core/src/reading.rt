//! The thread that reads: it puts a job for each game into the queue, and counts too. An end in the
//! queue is the sign for one thread that no job is left.
ghost use Rattle.std.specs.Prelude.{◌≡◌, true, ℕ, List, IfErr, OnOk};
ghost use Rattle.game_core.specs.Games.{HasReadAll};
ghost use Rattle.job_core.specs.declared.items.Item.TheVariants as item;
ghost use Rattle.job_core.specs.Rule.{MayPut};
ghost use Rattle.job_core.specs.Inner.Rule.{IsInStep};
ghost use Rattle.harvest_core.specs.Harvest.{IsCountRefused};
ghost use Rattle.harvest_core.specs.Inner.Working.{HasCounted, IsAtWork, GoesOn};
ghost use Rattle.harvest_core.specs.Inner.Dealt.{IsOffered, IsDealt, IsNewReader, IsReadingOf};

use crate::gates::Gate;
use crate::workers::{Shared, Worker};
use harvest_faults::HarvestFault;
use job_core::{Games, Item, Job};
use std::sync::Wait;
use tally_core::Report;

/// Puts a job into the queue, or counts its game in this thread, as the worker `own`, if the queue
/// is full.
fn offer<'a, R: Wait, G: Gate>(
    rt: &R,
    shared: &Shared<'_, 'a>,
    gate: &G,
    own: &mut Worker<'_, 'a>,
    job: Job<'a>,
)
    requires bytes { job.bytes ≡ shared.now.bytes.now }
    requires job { MayPut own.old.endpoint (item.Job job) }
    requires counted { (games : List ℕ) × HasCounted shared.now games own.old.counted }
    ensures { IsOffered shared.now job.entry own.old own.new }
{
    match own.endpoint.put(rt, Item::Job(job)) {
        Ok(()) => (),
        Err(Item::Job(back)) => own.count(shared, gate, &back),
        Err(Item::End) => (),
    }
}

/// Reads all games that are left: each is put into the queue, or counted here.
///
/// # Errors
///
/// `Sgf` with the input's first fault of syntax; `Memory` if memory was refused.
fn deal_all<'a, R: Wait, G: Gate>(
    rt: &R,
    shared: &Shared<'_, 'a>,
    gate: &G,
    games: &mut Games<'a>,
    own: &mut Worker<'_, 'a>,
) -> Result<(), HarvestFault>
    requires bytes { games.old.bytes ≡ shared.now.bytes.now }
    requires step { IsInStep games.old own.old.endpoint }
    requires dealt { IsDealt shared.now games.old.report.games own.old }
    ensures endpoint { own.new.endpoint ≡ record own.old.endpoint { put = own.new.endpoint.put } }
    ensures dealt { IsDealt shared.now games.new.report.games own.new }
    ensures all { OnOk result (HasReadAll shared.now.bytes.now games.new.report) }
    ensures fault { IfErr result (IsCountRefused shared.now.bytes.now) }
{
    loop {
        match games.next_job(shared.alloc)? {
            Some(job) => offer(rt, shared, gate, own, job),
            None => return Ok(()),
        }
    }
}

/// Puts an end into the queue for each thread that counts, also for this one. If the queue is full,
/// this thread makes room: it draws an item itself and counts its game, since no other thread may
/// be there to draw. If that item is an end, one more is put.
fn close<R: Wait, G: Gate>(rt: &R, shared: &Shared<'_, '_>, gate: &G, own: &mut Worker<'_, '_>)
    requires writes { own.old.endpoint.writes ≡ true }
    requires work { IsAtWork shared.now own.old }
    ensures { GoesOn shared.now own.old own.new }
{
    let mut left = usize::from(shared.workers);
    for _ in rt.forever() {
        if left == 0 {
            break;
        }
        if own.endpoint.put(rt, Item::End).is_ok() {
            left -= 1;
        } else if own.turn(rt, shared, gate) {
            left = left.saturating_add(1);
        }
    }
}

/// What the thread that reads the input returns: what it has counted itself, a report on the trees
/// that it read, and why it stopped before the last tree, if it did.
#[derive(Drop)]
pub(crate) struct Reading<'q, 'a> {
    /// The worker of this thread, with what it has counted.
    pub own: Worker<'q, 'a>,
    /// How many of the trees that were read are games of Go, are of other games, and are refused.
    pub report: Report,
    /// Why not all trees were read, if they were not.
    pub outcome: Result<(), HarvestFault>,
}

/// Reads the games and deals them out, counts with the other threads, and returns what it has read
/// and counted. Each game becomes a job in the queue, or is counted here if the queue is full. Then
/// an end is put into the queue for each thread, also if reading failed, and this thread counts
/// until it draws one: others may still count then. It waits for room in the queue and for items.
pub(crate) fn read<'q, 'a, R: Wait, G: Gate>(
    rt: &R,
    shared: &Shared<'_, 'a>,
    gate: &G,
    games: Games<'a>,
    own: Worker<'q, 'a>,
) -> Reading<'q, 'a>
    requires bytes { games.bytes ≡ shared.now.bytes.now }
    requires own { IsNewReader shared.now games own }
    ensures { IsReadingOf shared.now own.entry.endpoint result }
{
    let mut games = games;
    let mut own = own;
    let outcome = deal_all(rt, shared, gate, &mut games, &mut own);
    close(rt, shared, gate, &mut own);
    Reading {
        own: own.work(rt, shared, gate),
        report: games.report(),
        outcome,
    }
}
