//! Runs the thread that reads together with the workers that count.
ghost use Rattle.std.specs.Prelude.{◌≡◌, ◌≢◌, ◌+◌, ◌++◌, ◌∷◌, [], ℕ, List, All, length};
ghost use Rattle.std.specs.Prelude.{IfOk, Some};
ghost use Rattle.std.specs.List.{AllByRecursion};
ghost use Rattle.slot_table.specs.Passes.{IsPassOf};
ghost use Rattle.job_core.specs.Inner.Rule.{IsInStep};
ghost use Rattle.harvest_faults.specs.declared.faults.HarvestFault.TheVariants as fault;
ghost use Rattle.table_harvest.specs.Inner.Reading.{IsReadingOf};
ghost use Rattle.slot_table.specs.Stakes.{IsAsMuch, halved, half_of};
ghost use Rattle.table_harvest.specs.Inner.Threads.{IsHandleOf, IsBackOf, AreResults, IsJoinable};
ghost use Rattle.table_harvest.specs.Inner.Threads.{stakes_of, stakes_back};
ghost use Rattle.table_harvest.specs.Inner.Threads.{promised_of, numbers_back, workers_of};

use crate::reading::{Reading, close, read_games};
use crate::taking::{Results, take_up};
use crate::workers::{Returned, Worker, work};
use crate::working::Worked;
use harvest_core::Gate;
use harvest_faults::HarvestFault;
use job_core::{Endpoint, Games};
use probe_core::ProbeOrder;
use shape_core::Kinds;
use slot_table::{Pass, SlotTable, laws};
use std::alloc::{AllocError, Global};
use std::snapshot::Snapshot;
use std::sync::Wait;
use std::thread;
use std::thread::{Promise, PromisedHandle, Threads};

/// What the reading thread holds before it starts workers: the reader of the input's games
/// (`games`), its endpoint at the queue (its access to it) and the table (`own`), and, for the
/// proof alone, its pass (its right to call the table) before parts of it were given to workers
/// (`begun`).
#[derive(Drop)]
pub(crate) struct Caller<'q, 'a, 't, O: ProbeOrder, G: Gate> {
    pub games: Games<'a>,
    pub own: Worker<'q, 'a, 't, O, G>,
    pub begun: Snapshot<Pass<O>>,
}

/// The state of a worker before it began. The contracts derive from it what the worker's thread
/// hands back when it is joined, namely what `work` promises.
#[derive(Drop)]
pub(crate) struct BackTo<'q, 'a, 't, O: ProbeOrder> {
    table: &'t SlotTable<O>,
    kinds: Kinds,
    number: usize,
    endpoint: Snapshot<Endpoint<'q, 'a>>,
    pass: Snapshot<Pass<O>>,
}

impl<'q, 'a, 't, O: ProbeOrder> Promise<Returned<'q, 'a, O>> for BackTo<'q, 'a, 't, O> {
    ghost use Rattle.table_harvest.specs.Working.{IsReturned};

    ghost kept_by = { λ p r. IsReturned p.table.now p.kinds p.number p.endpoint.value p.pass.value r };
}

/// Returns the state of `worker`, for the contract on what its thread hands back.
fn back_to<'q, 'a, 't, O: ProbeOrder, G: Gate>(
    worker: &Worker<'q, 'a, 't, O, G>,
) -> BackTo<'q, 'a, 't, O>
    ensures table { result.table.now ≡ worker.now.table.now }
    ensures kinds { result.kinds ≡ worker.now.kinds }
    ensures number { result.number ≡ worker.now.number }
    ensures endpoint { result.endpoint.value ≡ worker.now.endpoint }
    ensures pass { result.pass.value ≡ worker.now.pass }
{
    BackTo {
        table: worker.table,
        kinds: worker.kinds,
        number: worker.number,
        endpoint: Snapshot::of(&worker.endpoint),
        pass: Snapshot::of(&worker.pass),
    }
}

/// Shows the prover that splitting a pass loses nothing of its stake (its part of the right to call
/// the table): what was given away and what is left still make up the whole. It does nothing.
fn splits_lose_no_stake()
    ensures { (stake given whole : List ℕ) → IsAsMuch (stake ++ given) whole
        → IsAsMuch (halved stake ++ (given ++ half_of stake)) whole }
{
    laws::a_split_loses_no_stake();
    laws::stakes_add_up();
}

impl<'q, 'a, 't, O: ProbeOrder, G: Gate> Caller<'q, 'a, 't, O, G> {
    ghost use Rattle.std.specs.Prelude.{◌≡◌, ◌-◌, ◌<◌};
    ghost use Rattle.slot_table.specs.Passes.{IsPassOf};
    ghost use Rattle.slot_table.specs.Stakes.{halved, half_of};
    ghost use Rattle.table_harvest.specs.Inner.Threads.{IsFresh};

    /// Makes the reading thread's state from the reader `games` and its own worker, `own`, before
    /// anything is read or a worker is started.
    pub(crate) fn begin(games: Games<'a>, own: Worker<'q, 'a, 't, O, G>) -> Caller<'q, 'a, 't, O, G>
        ensures games { result.games ≡ games.entry }
        ensures own { result.own ≡ own.entry }
        ensures begun { result.begun.value ≡ own.entry.pass }
    {
        let begun = Snapshot::of(&own.pass);
        Caller { games, own, begun }
    }

    /// Makes the worker with this number. It gets an endpoint at the job queue (access to it), and
    /// a pass (a right to call the table) that is split off this thread's.
    fn another(&mut self, number: usize) -> Worker<'q, 'a, 't, O, G>
        requires pass { IsPassOf self.old.own.table.now self.old.own.pass }
        requires parts { 1 < self.old.own.endpoint.parts }
        ensures same { self.new ≡ record self.old {
          own = record self.old.own {
            endpoint = record self.old.own.endpoint { parts = self.old.own.endpoint.parts - 1 };
            pass = record self.old.own.pass { stake = halved self.old.own.pass.stake };
          };
        } }
        ensures still { IsPassOf self.old.own.table.now self.new.own.pass }
        ensures theirs { IsFresh self.old.own.table.now self.old.own.endpoint.queue
            self.old.own.endpoint.bytes result.endpoint result.pass }
        ensures table { result.table.now ≡ self.old.own.table.now }
        ensures kinds { result.kinds ≡ self.old.own.kinds }
        ensures number { result.number ≡ number }
        ensures stake { result.pass.stake ≡ half_of self.old.own.pass.stake }
    {
        Worker {
            endpoint: self.own.endpoint.another(),
            table: self.own.table,
            pass: self.own.table.split(&mut self.own.pass),
            gate: self.own.gate,
            number,
            workers: self.own.workers,
            kinds: self.own.kinds,
        }
    }
}

/// Reads all games while `started` workers count. If fewer were started than `own.workers`, nothing
/// is read: an end, at which a worker stops, is added to the queue for each that was started, and
/// the fault is `Memory`.
fn finish<'q, 'a, 't, R: Wait, O: ProbeOrder, G: Gate>(
    rt: &R,
    alloc: Global,
    games: Games<'a>,
    own: Worker<'q, 'a, 't, O, G>,
    started: usize,
) -> Reading<'q, 'a, 't, O, G>
    requires pass { IsPassOf own.table.now own.pass }
    requires step { IsInStep games own.endpoint }
    requires none { (games.report.games ≡ 0) × (own.endpoint.put ≡ []) }
    ensures reading { IsReadingOf games.entry.bytes own.entry result }
    ensures ends { result.own.endpoint.ends_put ≡ own.entry.endpoint.ends_put + started }
    ensures asked { started ≢ own.entry.workers → result.fault ≡ Some fault.Memory }
{
    if started == own.workers {
        return read_games(rt, alloc, games, own, started);
    }
    let mut own = own;
    close(rt, &mut own.endpoint, started);
    Reading {
        worked: Worked::begin(alloc, 0, own.kinds),
        report: games.report(),
        fault: Some(HarvestFault::Memory),
        own,
    }
}

/// Waits for the threads of all workers, and returns what they hand back, in the order of
/// `handles`. `AllocError` if memory was refused. `own` is used in contracts only.
fn theirs<'q, 'a, 't, R: Threads, O: ProbeOrder, G: Gate>(
    rt: &R,
    own: &Worker<'q, 'a, 't, O, G>,
    handles: Vec<PromisedHandle<Returned<'q, 'a, O>, BackTo<'q, 'a, 't, O>>>,
) -> Result<Vec<Returned<'q, 'a, O>>, AllocError>
    requires { All (IsHandleOf own.now.table.now own.now.endpoint.queue own.now.endpoint.bytes
        own.now.kinds) handles.items }
    ensures back { IfOk result (λ all. AllByRecursion (IsBackOf own.now.table.now own.now.endpoint.queue
        own.now.endpoint.bytes own.now.kinds) all.items) }
    ensures each { IfOk result (λ all. length all.items ≡ length handles.entry.items) }
    ensures stakes { IfOk result (λ all. stakes_back all.items ≡ stakes_of handles.entry.items) }
    ensures numbers { IfOk result (λ all. numbers_back all.items
        ≡ promised_of handles.entry.items) }
{
    let _ = own;
    match thread::join_promised(rt, handles) {
        Ok(all) => Ok(all),
        Err(_refused) => Err(AllocError),
    }
}

/// Waits for all workers, by the `handles` of their threads, and returns their results, followed by
/// `reading`, that of the thread that reads. `AllocError` if memory was refused. `begun` is used in
/// contracts only.
fn joined<'q, 'a, 't, R: Threads, O: ProbeOrder, G: Gate>(
    rt: &R,
    alloc: Global,
    begun: Snapshot<Pass<O>>,
    reading: Reading<'q, 'a, 't, O, G>,
    handles: Vec<PromisedHandle<Returned<'q, 'a, O>, BackTo<'q, 'a, 't, O>>>,
) -> Result<Results<O>, AllocError>
    requires handles { All (IsHandleOf reading.own.table.now reading.own.endpoint.queue
        reading.own.endpoint.bytes reading.own.kinds) handles.items }
    requires reading { IsJoinable begun.value.stake (stakes_of handles.items)
        (length handles.items) reading }
    ensures results { IfOk result (AreResults reading.entry.own.table.now reading.entry.own.endpoint.bytes
        reading.entry.own.kinds begun.value.stake) }
    ensures fault { IfOk result (λ results. results.fault ≡ reading.entry.fault) }
    ensures each { IfOk result (λ results. length results.worked.items
        ≡ length handles.entry.items + 1) }
    ensures workers { IfOk result (λ results. workers_of results.worked.items
        ≡ promised_of handles.entry.items ++ reading.entry.worked.share.worker ∷ []) }
{
    let _ = begun;
    let Reading {
        worked: mine,
        report,
        fault,
        own,
    } = reading;
    let mut own = own;
    let all = theirs(rt, &own, handles)?;
    let mut worked = Vec::new(alloc);
    take_up(&mut own, &mut worked, all)?;
    if fault.is_none() {
        // For the proof: all endpoints are merged into this one, so each game was taken from the
        // queue as often as it was added.
        own.endpoint.settle();
    }
    worked.push(mine)?;
    Ok(Results {
        worked,
        report,
        fault,
        pass: own.pass,
    })
}

impl<'q, 'a, 't, O: ProbeOrder, G: Gate> Caller<'q, 'a, 't, O, G> {
    ghost use Rattle.std.specs.Prelude.{[], IfOk};
    ghost use Rattle.slot_table.specs.Passes.{IsPassOf};
    ghost use Rattle.table_harvest.specs.Working.{IsReturned};
    ghost use Rattle.table_harvest.specs.Inner.Threads.{IsCaller, AreResults, AreAsked};

    /// Starts the workers, in threads of `rt`, reads all games, and waits for the workers to end.
    /// Returns what each thread has counted, one entry for each: those of the workers in the order
    /// of their numbers, and then that of this thread. `fault` of the results is why this thread
    /// did not read all games, or None: it is `Memory`, and nothing was read, if fewer workers than
    /// were asked for could be started. `AllocError` if memory was refused for the results.
    pub(crate) fn run<R: Threads + Wait + Sync>(
        self,
        rt: &R,
        alloc: Global,
    ) -> Result<Results<O>, AllocError>
    where
        O: Send + Sync,
        requires caller { IsCaller self.own.table.now self.own.endpoint.queue self.games.bytes
            self.own.kinds [] 0 self }
        ensures results { IfOk result (AreResults self.entry.own.table.now self.entry.games.bytes
            self.entry.own.kinds self.entry.begun.value.stake) }
        ensures workers { IfOk result (AreAsked self.entry.own.workers) }
    {
        let caller = self;
        thread::scope(
            thread::scope_env(),
            rt,
            move |scope| -> Result<Results<O>, AllocError>
                requires { IsCaller caller.own.table.now caller.own.endpoint.queue caller.games.bytes
                    caller.own.kinds [] 0 caller }
                ensures results { IfOk result (AreResults caller.entry.own.table.now caller.entry.games.bytes
                    caller.entry.own.kinds caller.entry.begun.value.stake) }
                ensures workers { IfOk result (AreAsked caller.entry.own.workers) }
            {
                let mut caller = caller;
                let mut started = 0;
                let mut handles = Vec::new(alloc);
                for _ in 0..caller.own.workers {
                    if handles.reserve(1).is_err() {
                        break;
                    }
                    // For the proof alone: the next split loses nothing of the right to call the
                    // table.
                    splits_lose_no_stake();
                    let worker = caller.another(started + 1);
                    let promise = back_to(&worker);
                    let task = move || -> Returned<'_, '_, O>
                        requires { IsPassOf worker.table.now worker.pass }
                        ensures { IsReturned worker.entry.table.now worker.entry.kinds
                            worker.entry.number worker.entry.endpoint worker.entry.pass result }
                    { work(rt, alloc, worker) };
                    match scope.spawn_with(promise, task) {
                        Ok(handle) => {
                            handles.push_reserved(handle);
                            started += 1;
                        }
                        Err(_refused) => break,
                    }
                }
                let Caller { games, own, begun } = caller;
                let reading = finish(rt, alloc, games, own, started);
                joined(rt, alloc, begun, reading, handles)
            },
        )
    }
}
