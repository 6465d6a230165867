//! Probes: a call that probes the slots of its key, one step at a time.
ghost use Rattle.std.specs.Prelude.{◌≡◌, ℕ, ◌+◌, ◌*◌, ◌^◌, ◌<◌, ◌≤◌, false, true};
ghost use Rattle.probe_core.specs.Machine.{Machine, begun, next_step, follows, followed_by};
ghost use Rattle.probe_core.specs.Machine.{left_of, steps_of, place_in, key_of, code_of};
ghost use Rattle.probe_core.specs.Machine.{place_wanted, GoesOn};
ghost use Rattle.probe_core.specs.Turn.{turn_of, HasFewer};

use crate::calls::{Answer, Call, Want};
use crate::keys::Key;
use crate::orders::ProbeOrder;
use std::marker::Model;

/// A call under way: it probes the slots of its key one after another, in the key's order. `index`
/// is how many it has passed, and `swaps` whether a compare-exchange is next, not a load.
#[derive(Drop)]
pub struct Probe<O: ProbeOrder> {
    order: O,
    call: Call,
    index: usize,
    swaps: bool,
}

impl<O: ProbeOrder> Model for Probe<O> {
    ghost use Rattle.std.specs.Prelude.{ℕ, ◌<◌, ◌^◌};
    ghost use Rattle.probe_core.specs.Probing.{Probing};
    ghost use Rattle.probe_core.specs.Machine.{Machine};

    ghost Value = { Probing O };

    ghost view = { λ p. record {
      order = p.order;
      machine = record { call = p.call; index = p.index; swaps = p.swaps };
    } };

    ghost invariant = { λ p. p.index < 2 ^ O.exponent p.order };

    ghost inverse = { λ v. record {
      order = v.order;
      call = v.machine.call;
      index = v.machine.index;
      swaps = v.machine.swaps;
    } };
}

/// What follows a step of a probe: the call goes on, or it has ended.
#[derive(Drop)]
pub enum Turn<O: ProbeOrder> {
    /// The call goes on.
    On(Probe<O>),
    /// The call has ended.
    Done(Answer),
}

/// Returns the key that a call asks about.
fn key_asked(call: Call) -> Key
    ensures { result ≡ key_of call }
{
    match call {
        Call::Enter(key) | Call::LookUp(key) => key,
    }
}

impl<O: ProbeOrder> Probe<O> {
    /// Returns a call before its first step, which loads the first slot of its key in `order`. It
    /// takes no memory.
    ///
    /// An Enter takes at most 2N steps, and a LookUp at most N, with N slots, whatever other
    /// callers do.
    pub fn begin(order: &O, call: Call) -> Probe<O>
        ensures order { result.order ≡ order.now }
        ensures machine { result.machine ≡ begun call }
        ensures steps { left_of (2 ^ O.exponent order.now) result.machine
            ≡ steps_of call (2 ^ O.exponent order.now) false }
    {
        Probe {
            order: *order,
            call,
            index: 0,
            swaps: false,
        }
    }

    /// Returns a call that loads next the slot at this index of its key's order. It takes no
    /// memory.
    ///
    /// The index must be below the number of slots. The caller must have found other keys in the
    /// slots at lesser indices; that is not checked.
    pub fn at(order: &O, call: Call, index: usize) -> Probe<O>
        requires { index < 2 ^ O.exponent order.now }
        ensures order { result.order ≡ order.now }
        ensures machine { result.machine ≡ record {
          call = call;
          index = index;
          swaps = false;
        } }
    {
        Probe {
            order: *order,
            call,
            index,
            swaps: false,
        }
    }

    /// Returns the next step, which the caller is to take: a load, or a compare-exchange from 0 to
    /// the key plus 1. Its slot's index is below the number of slots. It takes no memory.
    pub fn wants(&self) -> Want
        ensures step { result ≡ next_step self.now.machine
            (place_in (O.place_of self.now.order) self.now.machine) }
        ensures within { place_wanted result < 2 ^ O.exponent self.now.order }
    {
        let place = self.place();
        if self.swaps {
            Want::Swap {
                place,
                value: self.coded(),
            }
        } else {
            Want::Load(place)
        }
    }

    /// Returns the call that is under way. It takes no memory.
    pub(crate) fn call(&self) -> Call
        ensures { result ≡ self.now.machine.call }
    {
        self.call
    }

    /// Returns what follows the step of `wants`, once the caller has taken it: the call goes on, or
    /// has ended with an answer. `value` is what the slot's word held before that step. It takes no
    /// memory.
    ///
    /// If a load found the word free, an Enter does the compare-exchange next, and a LookUp ends
    /// with Absent. If the word is the key's, or the compare-exchange found it free, the answer is
    /// Number. After any other word the next slot is loaded, and after the last slot the answer is
    /// Full. A probe that goes on has fewer steps left.
    pub fn told(self, value: u64) -> Turn<O>
        ensures turn { result ≡ turn_of self.order (follows (2 ^ O.exponent self.order)
            self.machine (place_in (O.place_of self.order) self.machine) value) }
        ensures fewer { HasFewer (2 ^ O.exponent self.order)
            (left_of (2 ^ O.exponent self.order) self.machine) result }
    {
        self.turn(value)
    }

    /// Returns what follows the step of `wants` that found `value` in the slot's word: see `told`.
    fn turn(self, value: u64) -> Turn<O>
        ensures turn { result ≡ turn_of self.order (follows (2 ^ O.exponent self.order)
            self.machine (place_in (O.place_of self.order) self.machine) value) }
        ensures within { self.machine.index < 2 ^ O.exponent self.order }
    {
        if value == 0 && !self.swaps {
            match self.call {
                Call::Enter(_) => Turn::On(Probe {
                    swaps: true,
                    ..self
                }),
                Call::LookUp(_) => Turn::Done(Answer::Absent),
            }
        } else if value == 0 || value == self.coded() {
            Turn::Done(Answer::Number(self.place()))
        } else {
            self.moved_on()
        }
    }

    /// Returns the probe that loads the next slot, or the answer Full if this was the last one.
    fn moved_on(self) -> Turn<O>
        ensures { result ≡ turn_of self.order (followed_by (2 ^ O.exponent self.order) self.machine
            GoesOn) }
    {
        let slots = self.order.capacity().slots();
        let index = self.index + 1;
        if index == slots {
            Turn::Done(Answer::Full)
        } else {
            Turn::On(Probe {
                order: self.order,
                call: self.call,
                index,
                swaps: false,
            })
        }
    }

    /// Returns the index of the slot that the next step reads.
    fn place(&self) -> usize
        ensures { result ≡ place_in (O.place_of self.now.order) self.now.machine }
    {
        self.order.place(key_asked(self.call), self.index)
    }

    /// Returns the word of a slot that has the probe's key: the key plus 1.
    fn coded(&self) -> u64
        ensures { result ≡ code_of (key_of self.now.machine.call) }
    {
        key_asked(self.call).bits() + 1
    }
}
