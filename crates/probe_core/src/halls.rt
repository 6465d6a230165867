//! Halls: a simulated table with its callers (each makes one call at a time), and what each event
//! does.
ghost use Rattle.std.specs.Prelude.{◌≡◌, ℕ, ◌+◌, ◌<◌, ◌≤◌, ◌^◌, ◌↔◌, [], ◌∷◌, replicate, IsTrue};
ghost use Rattle.std.specs.Prelude.{IfOk, Some, None, slice_get, count_by, vec_len, vec_capacity};
ghost use Rattle.probe_core.specs.World.{new_world, began, stepped, happened, counted};
ghost use Rattle.probe_core.specs.Inner.Hall.{world_of, call_of, IsFitted, is_step, HasRoom};

use crate::calls::Call;
use crate::events::{Event, Finished};
use crate::orders::ProbeOrder;
use crate::probes::{Probe, Turn};
use crate::steps::advance;
use std::alloc::{AllocError, Global};

/// A call under way (`probe`), and the number of the event that began it (`since`).
#[derive(Drop)]
pub(crate) struct UnderWay<O: ProbeOrder> {
    probe: Probe<O>,
    since: usize,
}

/// The state of a simulation: the order in which slots are probed, the table's words (one a slot),
/// the callers, each with a call under way or None, the calls that have ended, and the number of
/// events so far.
#[derive(Drop)]
pub(crate) struct Hall<O: ProbeOrder> {
    pub(crate) order: O,
    pub(crate) words: Vec<u64>,
    callers: Vec<Option<UnderWay<O>>>,
    pub(crate) finished: Vec<Finished>,
    pub(crate) events: usize,
}

impl<O: ProbeOrder> Hall<O> {
    /// Makes a simulation before any event, with `callers` callers that have no call under way, and
    /// a free slot's word for each slot of `order`. `AllocError` if memory was refused.
    pub(crate) fn new(alloc: Global, order: O, callers: usize) -> Result<Hall<O>, AllocError>
        ensures order { IfOk result (λ hall. hall.order ≡ order) }
        ensures world { IfOk result (λ hall. world_of hall
            ≡ new_world (2 ^ O.exponent order) callers) }
        ensures fitted { IfOk result (λ hall. IsFitted O.exponent hall) }
    {
        let slots = order.capacity().slots();
        let words = vec![in alloc; 0; slots]?;
        let callers = idle_callers(alloc, callers)?;
        Ok(Hall {
            order,
            words,
            callers,
            finished: Vec::new(alloc),
            events: 0,
        })
    }

    /// Carries out an event and counts it. If it is a step, the list `finished` must have the
    /// capacity for one more, as no memory is taken.
    pub(crate) fn happen(&mut self, event: Event)
        requires fitted { IsFitted O.exponent self.old }
        requires room { HasRoom self.old (event ∷ []) }
        requires few { self.old.events < 2 ^ 62 }
        ensures order { self.new.order ≡ self.old.order }
        ensures world { world_of self.new ≡
            counted (happened (2 ^ O.exponent self.old.order) (O.place_of self.old.order)
            (world_of self.old) event) }
        ensures fitted { IsFitted O.exponent self.new }
        ensures capacity { vec_capacity self.new.finished ≡ vec_capacity self.old.finished }
        ensures grown { vec_len self.new.finished
            ≤ vec_len self.old.finished + count_by is_step (event ∷ []) }
        ensures events { self.new.events ≡ self.old.events + 1 }
    {
        match event {
            Event::Begin(caller, call) => self.begin(caller, call),
            Event::Step(caller) => self.step(caller),
        }
        self.events += 1;
    }

    /// Whether the caller exists and has no call under way.
    fn is_idle(&self, caller: usize) -> bool
        ensures { IsTrue result ↔ (slice_get self.now.callers.items caller ≡ Some None) }
    {
        caller < self.callers.len() && self.callers[caller].is_none()
    }

    /// Begins a call of this caller. Nothing is done if the caller has a call under way or doesn't
    /// exist.
    fn begin(&mut self, caller: usize, call: Call)
        requires { IsFitted O.exponent self.old }
        ensures order { self.new.order ≡ self.old.order }
        ensures world { world_of self.new ≡ began (world_of self.old) caller call
            (slice_get (world_of self.old).callers caller) }
        ensures fitted { IsFitted O.exponent self.new }
        ensures finished { self.new.finished ≡ self.old.finished }
        ensures events { self.new.events ≡ self.old.events }
    {
        if self.is_idle(caller) {
            let probe = Probe::begin(&self.order, call);
            let since = self.events;
            self.callers[caller] = Some(UnderWay { probe, since });
        }
    }

    /// Takes the next step of the caller's call. Nothing is done if the caller has none or doesn't
    /// exist. The list `finished` must have the capacity for that call.
    fn step(&mut self, caller: usize)
        requires fitted { IsFitted O.exponent self.old }
        requires room { vec_len self.old.finished < vec_capacity self.old.finished }
        ensures order { self.new.order ≡ self.old.order }
        ensures world { world_of self.new ≡
            stepped (2 ^ O.exponent self.old.order) (O.place_of self.old.order) (world_of self.old)
            caller (slice_get (world_of self.old).callers caller) }
        ensures fitted { IsFitted O.exponent self.new }
        ensures capacity { vec_capacity self.new.finished ≡ vec_capacity self.old.finished }
        ensures grown { vec_len self.new.finished ≤ vec_len self.old.finished + 1 }
        ensures events { self.new.events ≡ self.old.events }
    {
        if caller >= self.callers.len() {
            return;
        }
        if let Some(call) = self.callers[caller].take() {
            self.go_on(caller, call);
        }
    }

    /// Takes the next step of `call`, which was removed from its caller. If the call goes on, the
    /// caller gets it back; else it is appended to `finished`.
    fn go_on(&mut self, caller: usize, call: UnderWay<O>)
        requires fitted { IsFitted O.exponent self.old }
        requires ordered { call.probe.order ≡ self.old.order }
        requires idle { slice_get self.old.callers.items caller ≡ Some None }
        requires room { vec_len self.old.finished < vec_capacity self.old.finished }
        ensures order { self.new.order ≡ self.old.order }
        ensures world { world_of self.new ≡
            stepped (2 ^ O.exponent self.old.order) (O.place_of self.old.order) (world_of self.old)
            caller (Some (Some (call_of call))) }
        ensures fitted { IsFitted O.exponent self.new }
        ensures capacity { vec_capacity self.new.finished ≡ vec_capacity self.old.finished }
        ensures grown { vec_len self.new.finished ≤ vec_len self.old.finished + 1 }
        ensures events { self.new.events ≡ self.old.events }
    {
        let UnderWay { probe, since } = call;
        let asked = probe.call();
        match advance(&mut self.words, probe) {
            Turn::On(probe) => self.callers[caller] = Some(UnderWay { probe, since }),
            Turn::Done(answer) => self.finished.push_reserved(Finished {
                caller,
                call: asked,
                answer,
                begun: since,
                ended: self.events,
            }),
        }
    }
}

/// Returns a list of `count` callers, each without a call. `AllocError` if memory was refused.
fn idle_callers<O: ProbeOrder>(
    alloc: Global,
    count: usize,
) -> Result<Vec<Option<UnderWay<O>>>, AllocError>
    ensures { IfOk result (λ callers. callers.items ≡ replicate count None) }
{
    let mut callers = Vec::with_capacity(alloc, count)?;
    for _ in 0..count {
        callers.push(None)?;
    }
    Ok(callers)
}
