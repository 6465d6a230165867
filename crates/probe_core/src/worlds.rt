//! Worlds: simulations of any number of callers at one table, whose calls take their steps one at a
//! time, in any order.
ghost use Rattle.std.specs.Prelude.{◌≡◌, ◌+◌, ◌<◌, ◌^◌, ◌↔◌, IfOk, OnOk, OnErr, IsOkUnless};
ghost use Rattle.std.specs.Prelude.{IsErrOf, length, count_by};
ghost use Rattle.probe_core.specs.World.{new_world, after_events};
ghost use Rattle.probe_core.specs.Inner.Hall.{is_step};
ghost use Rattle.probe_core.specs.Lawful.{IsLawful, GrowsAmong};

use crate::events::{Event, Finished};
use crate::faults::ProbeFault;
use crate::halls::Hall;
use crate::orders::ProbeOrder;
use std::alloc::Global;
use std::marker::Model;

/// The most events that all calls of `World::run` on one world may have together.
const MOST_EVENTS: usize = 1 << 62;

/// A simulation of callers that use one table at the same time: the table's words (one a slot), the
/// callers, and the calls that have ended.
///
/// Memory is taken by `new`, for each slot and caller, and by `run`, for each call that may end.
#[derive(Drop)]
pub struct World<O: ProbeOrder> {
    hall: Hall<O>,
}

impl<O: ProbeOrder> Model for World<O> {
    ghost use Rattle.probe_core.specs.Placed.{Placed};
    ghost use Rattle.probe_core.specs.Inner.Hall.{world_of};
    ghost use Rattle.probe_core.specs.Inner.Lawful.{IsHeld};

    ghost Value = { Placed O };

    ghost view = { λ w. record { order = w.hall.order; world = world_of w.hall } };

    ghost invariant = { λ w. IsHeld O.exponent O.place_of w.hall };
}

impl<O: ProbeOrder> World<O> {
    /// Makes a simulation before any event: a table whose slots are all free, and `callers` callers
    /// without a call. `order` says how many slots there are, and in which order they are probed.
    ///
    /// It takes memory for each slot of the order and each caller.
    ///
    /// # Errors
    ///
    /// `Memory` if memory was refused.
    pub fn new(alloc: Global, order: O, callers: usize) -> Result<World<O>, ProbeFault>
        ensures order { IfOk result (λ world. world.order ≡ order) }
        ensures world { IfOk result (λ world. world.world
            ≡ new_world (2 ^ O.exponent order) callers) }
        ensures lawful { IfOk result (λ world. IsLawful (2 ^ O.exponent order) world.world) }
        ensures memory { IsOkUnless result ProbeFault.Memory }
    {
        let hall = Hall::new(alloc, order, callers)?;
        Ok(World { hall })
    }

    /// Simulates these events one after another, in their order.
    ///
    /// A Begin of a caller with a call under way, a Step of a caller without one, and an event of a
    /// caller that does not exist change the count of events and nothing else. Memory is taken
    /// first, for each call that may end.
    ///
    /// # Errors
    ///
    /// `TooLong` exactly if the events of all runs together would be more than 2^62, which is
    /// checked before memory is asked for; `Memory` if memory was refused. After either the world
    /// is as it was.
    pub fn run(&mut self, events: &[Event]) -> Result<(), ProbeFault>
        ensures order { self.new.order ≡ self.old.order }
        ensures world { OnOk result
            (self.new.world ≡ after_events (2 ^ O.exponent self.old.order)
            (O.place_of self.old.order) self.old.world events.now) }
        ensures grows { OnOk result
            (GrowsAmong self.old.world.events events.now self.old.world.finished
            self.new.world.finished) }
        ensures lawful { IsLawful (2 ^ O.exponent self.new.order) self.new.world }
        ensures too_long { IsErrOf result ProbeFault.TooLong ↔
            (2 ^ 62 < self.old.world.events + length events.now) }
        ensures err { OnErr result (self.new ≡ self.old) }
    {
        if events.len() > MOST_EVENTS - self.hall.events {
            return Err(ProbeFault::TooLong);
        }
        self.hall.finished.reserve(count_steps(events))?;
        for event in events {
            self.hall.happen(*event);
        }
        Ok(())
    }

    /// Returns the calls that have ended, in the order of their last steps. It takes no memory.
    pub fn history(&self) -> &[Finished]
        ensures value { result.now ≡ self.now.world.finished }
        ensures lawful { IsLawful (2 ^ O.exponent self.now.order) self.now.world }
    {
        &self.hall.finished
    }

    /// Returns the table's words, one a slot: 0 for a free slot, else its key plus 1. It takes no
    /// memory.
    pub fn words(&self) -> &[u64]
        ensures value { result.now ≡ self.now.world.words }
        ensures lawful { IsLawful (2 ^ O.exponent self.now.order) self.now.world }
    {
        &self.hall.words
    }
}

/// Returns how many of the events may end a call: the steps.
fn count_steps(events: &[Event]) -> usize
    ensures { result ≡ count_by is_step events.now }
{
    events
        .iter()
        .filter(|event| matches!(event, Event::Step(_)))
        .count()
}
