//! A table that one caller alone uses.
ghost use Rattle.std.specs.Prelude.{◌≡◌, ◌^◌, IfOk, IsOkUnless, length};
ghost use Rattle.probe_core.specs.Sequential.{Step};
ghost use Rattle.probe_core.specs.History.{empty_table};

use crate::calls::{Answer, Call};
use crate::faults::ProbeFault;
use crate::keys::Key;
use crate::orders::ProbeOrder;
use crate::probes::{Probe, Turn};
use crate::steps::{advance, look};
use std::alloc::Global;
use std::marker::Model;

/// A hash table for one caller at a time: it gives each key that is entered a number (the index of
/// a slot), which the key keeps.
///
/// All memory is taken by `new`: a word for each slot of the order.
#[derive(Drop)]
pub struct SoloTable<O: ProbeOrder> {
    order: O,
    words: Vec<u64>,
}

impl<O: ProbeOrder> Model for SoloTable<O> {
    ghost use Rattle.std.specs.Prelude.{◌^◌};
    ghost use Rattle.probe_core.specs.Placing.{IsOrderly};
    ghost use Rattle.probe_core.specs.Showing.{table_of};
    ghost use Rattle.probe_core.specs.Solo.{Solo};

    ghost Value = { Solo O };

    ghost view = { λ t. record { order = t.order; table = table_of t.words.items } };

    ghost invariant = { λ t. IsOrderly (2 ^ O.exponent t.order) (O.place_of t.order)
        t.words.items };
}

impl<O: ProbeOrder> SoloTable<O> {
    /// Makes a table in which no key has a number. `order` says how many slots it has, and in which
    /// order they are probed.
    ///
    /// It takes memory for each slot.
    ///
    /// # Errors
    ///
    /// `Memory` if memory was refused.
    pub fn new(alloc: Global, order: O) -> Result<SoloTable<O>, ProbeFault>
        ensures order { IfOk result (λ table. table.order ≡ order) }
        ensures empty { IfOk result (λ table. table.table ≡ empty_table (2 ^ O.exponent order)) }
        ensures memory { IsOkUnless result ProbeFault.Memory }
    {
        let slots = order.capacity().slots();
        let words = vec![in alloc; 0; slots]?;
        Ok(SoloTable { order, words })
    }

    /// Returns the key's number (the index of its slot). If the key has none, it gets a free number
    /// and keeps it; if none is free, the answer is `Full`. It takes no memory.
    pub fn enter(&mut self, key: Key) -> Answer
        ensures order { self.new.order ≡ self.old.order }
        ensures step { Step self.old.table (Call.Enter key) result self.new.table }
        ensures whole { length self.new.table ≡ 2 ^ O.exponent self.new.order }
    {
        let mut probe = Probe::begin(&self.order, Call::Enter(key));
        loop {
            match advance(&mut self.words, probe) {
                Turn::On(next) => probe = next,
                Turn::Done(answer) => return answer,
            }
        }
    }

    /// Returns the key's number (the index of its slot). If the key has none, the answer is
    /// `Absent` if some number is free, else `Full`. The table stays as it is, and no memory is
    /// taken.
    pub fn look_up(&self, key: Key) -> Answer
        ensures step { Step self.now.table (Call.LookUp key) result self.now.table }
        ensures whole { length self.now.table ≡ 2 ^ O.exponent self.now.order }
    {
        let mut probe = Probe::begin(&self.order, Call::LookUp(key));
        loop {
            match look(&self.words, probe) {
                Turn::On(next) => probe = next,
                Turn::Done(answer) => return answer,
            }
        }
    }
}
