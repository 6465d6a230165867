//! The thread that reads: it makes a job (a game to count) for each game and adds it to the queue.
//! If the queue is full, it counts the game itself. An endpoint is a thread's access to the queue;
//! an end is the item at which one worker stops.
ghost use Rattle.std.specs.Prelude.{◌≡◌, ◌+◌, ◌≤◌, ◌⊎◌, ◌↔◌, [], true, None};
ghost use Rattle.std.specs.Prelude.{IsTrue, IfErr, OnOk};
ghost use Rattle.job_core.specs.declared.items.Item.TheVariants as item;
ghost use Rattle.shape_core.specs.declared.words.Kinds.{Kinds};
ghost use Rattle.game_core.specs.Games.{HasReadAll};
ghost use Rattle.job_core.specs.Rising.{past};
ghost use Rattle.job_core.specs.Rule.{MayPut, putting};
ghost use Rattle.job_core.specs.Inner.Rule.{IsInStep};
ghost use Rattle.slot_table.specs.Passes.{IsPassOf};
ghost use Rattle.table_shares.specs.Checking.{Stand};
ghost use Rattle.harvest_faults.specs.declared.faults.HarvestFault.TheVariants as fault;
ghost use Rattle.table_harvest.specs.InTable.{IsInTableSince, GoesOnInTable};
ghost use Rattle.harvest_core.specs.Working.{IsWorked};
ghost use Rattle.table_harvest.specs.Working.{IsRefused, IsCounted, CallsIn};
ghost use Rattle.harvest_core.specs.Harvest.{IsCountRefused};
ghost use Rattle.table_harvest.specs.Inner.Reading.{AreDealt, IsReadingOf};

use crate::workers::Worker;
use crate::working::Worked;
use harvest_core::Gate;
use harvest_faults::HarvestFault;
use job_core::{Endpoint, Games, Item, Job};
use probe_core::ProbeOrder;
use std::alloc::Global;
use std::sync::Wait;
use std::thread;
use tally_core::Report;

/// Adds a job to the queue, or counts its game in this thread, into `worked`, if the queue is full.
/// `own` is this thread's endpoint at the queue, with the table and the right to call it.
fn offer<'a, R: Wait, O: ProbeOrder, G: Gate>(
    rt: &R,
    own: &mut Worker<'_, 'a, '_, O, G>,
    worked: &mut Worked,
    job: Job<'a>,
)
    requires pass { IsPassOf own.old.table.now own.old.pass }
    requires job { MayPut own.old.endpoint (item.Job job) }
    ensures same { own.new ≡ record own.old { endpoint = own.new.endpoint; pass = own.new.pass } }
    ensures pass { IsPassOf own.old.table.now own.new.pass }
    ensures offered { ((own.new.endpoint ≡ putting own.old.endpoint (item.Job job.entry))
        × (worked.new ≡ worked.old))
        ⊎ ((own.new.endpoint ≡ own.old.endpoint) × IsCounted job.entry.game worked.old worked.new) }
    ensures worker { worked.new.share.worker ≡ worked.old.share.worker }
    ensures worked { (kinds : Kinds) → IsWorked job.entry.bytes kinds worked.old.share
        → past worked.old.share.games ≤ job.entry.game
        → IsWorked job.entry.bytes kinds worked.new.share }
    ensures refused { (kinds : Kinds) → IsWorked job.entry.bytes kinds worked.old.share
        → Stand own.old.table.now.slots own.old.pass.seen worked.old.share.rows
        → IsRefused job.entry.bytes kinds worked.old.refused
        → IsRefused job.entry.bytes kinds worked.new.refused }
    ensures calls { (kinds : Kinds) → worked.old.share.kinds ≡ kinds
        → CallsIn own.old.table.now.slots job.entry.bytes kinds own.old.pass own.new.pass }
    ensures table { GoesOnInTable own.old.table.now.slots own.old.pass own.new.pass
        worked.old worked.new }
{
    match own.endpoint.put(rt, Item::Job(job)) {
        Ok(()) => (),
        Err(Item::Job(back)) => worked.count(own.table, &mut own.pass, own.gate, &back),
        // `put` gives back the item that it was given, a job, so this does not occur.
        Err(Item::End) => (),
    }
}

/// Whether the worker refused a game because memory was refused.
fn wants_memory(worked: &Worked) -> bool
    ensures { IsTrue result ↔ (worked.now.refused ≡ Some fault.Memory) }
{
    matches!(worked.refused, Some(HarvestFault::Memory))
}

/// Reads all games of an input, from the first. Each is added to the queue for the workers, or
/// counted here, into `worked`, if the queue is full. `own` is this thread's endpoint at the queue,
/// with the table. `Memory` if memory was refused, also for a game that was counted here; else
/// `Sgf` with the first fault of syntax. Reading ends at either.
fn read_all<'a, R: Wait, O: ProbeOrder, G: Gate>(
    rt: &R,
    alloc: Global,
    games: &mut Games<'a>,
    own: &mut Worker<'_, 'a, '_, O, G>,
    worked: &mut Worked,
) -> Result<(), HarvestFault>
    requires pass { IsPassOf own.old.table.now own.old.pass }
    requires step { IsInStep games.old own.old.endpoint }
    requires none { (games.old.report.games ≡ 0) × (own.old.endpoint.put ≡ []) }
    requires begun { (worked.old.share.games ≡ []) × (worked.old.share.rows ≡ [])
        × (worked.old.refused ≡ None) }
    requires worked { IsWorked games.old.bytes own.old.kinds worked.old.share }
    ensures same { own.new ≡ record own.old {
      endpoint = record own.old.endpoint { put = own.new.endpoint.put };
      pass = own.new.pass;
    } }
    ensures pass { IsPassOf own.old.table.now own.new.pass }
    ensures worker { worked.new.share.worker ≡ worked.old.share.worker }
    ensures worked { IsWorked games.old.bytes own.old.kinds worked.new.share }
    ensures refused { IsRefused games.old.bytes own.old.kinds worked.new.refused }
    ensures calls { CallsIn own.old.table.now.slots games.old.bytes own.old.kinds
        own.old.pass own.new.pass }
    ensures table { IsInTableSince own.old.table.now.slots own.old.pass own.new.pass worked.new }
    ensures all { OnOk result (HasReadAll games.old.bytes games.new.report) }
    ensures dealt { OnOk result (AreDealt games.new.report.games own.new.endpoint.put worked.new) }
    ensures fault { IfErr result (IsCountRefused games.old.bytes) }
{
    loop {
        match games.next_job(alloc)? {
            Some(job) => offer(rt, own, worked, job),
            None => return Ok(()),
        }
        if wants_memory(worked) {
            return Err(HarvestFault::Memory);
        }
    }
}

/// Adds an end (the item at which one worker stops) to the queue. It waits while the queue is full,
/// and lets other threads run.
fn put_end<R: Wait>(rt: &R, endpoint: &mut Endpoint<'_, '_>)
    requires { endpoint.old.writes ≡ true }
    ensures { endpoint.new ≡ putting endpoint.old item.End }
{
    for _ in rt.forever() {
        if endpoint.put(rt, Item::End).is_ok() {
            break;
        }
        thread::yield_now();
    }
}

/// Adds one end for each of the workers to the queue (the item at which a worker stops), and waits
/// while the queue is full.
pub(crate) fn close<R: Wait>(rt: &R, endpoint: &mut Endpoint<'_, '_>, workers: usize)
    requires { endpoint.old.writes ≡ true }
    ensures { endpoint.new ≡ record endpoint.old { ends_put = endpoint.old.ends_put + workers } }
{
    for _ in 0..workers {
        put_end(rt, endpoint);
    }
}

/// What `read_games` returns: what the reading thread has counted itself (`worked`), the report on
/// the input's trees, the `fault` that ended the reading, if any, and the thread's endpoint at the
/// queue with its pass, its right to call the table (`own`).
#[derive(Drop)]
pub(crate) struct Reading<'q, 'a, 't, O: ProbeOrder, G: Gate> {
    pub worked: Worked,
    pub report: Report,
    pub fault: Option<HarvestFault>,
    pub own: Worker<'q, 'a, 't, O, G>,
}

/// Reads all games, each of which is added to the queue or counted here, and then adds an end for
/// each of the `workers` workers that were started. While the queue has no room for an end, it
/// waits until workers have taken items. A fault is returned in the result; the ends are added then
/// too.
pub(crate) fn read_games<'q, 'a, 't, R: Wait, O: ProbeOrder, G: Gate>(
    rt: &R,
    alloc: Global,
    games: Games<'a>,
    own: Worker<'q, 'a, 't, O, G>,
    workers: usize,
) -> Reading<'q, 'a, 't, O, G>
    requires pass { IsPassOf own.table.now own.pass }
    requires step { IsInStep games own.endpoint }
    requires none { (games.report.games ≡ 0) × (own.endpoint.put ≡ []) }
    ensures reading { IsReadingOf games.entry.bytes own.entry result }
    ensures ends { result.own.endpoint.ends_put ≡ own.entry.endpoint.ends_put + workers }
{
    let mut games = games;
    let mut own = own;
    let mut worked = Worked::begin(alloc, 0, own.kinds);
    let outcome = read_all(rt, alloc, &mut games, &mut own, &mut worked);
    close(rt, &mut own.endpoint, workers);
    Reading {
        worked,
        report: games.report(),
        fault: outcome.err(),
        own,
    }
}
