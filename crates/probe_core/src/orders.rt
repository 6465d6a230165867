//! Probe orders: in which order the slots of a table are probed for each key.
ghost use Rattle.std.specs.Prelude.{◌≡◌, ℕ, ◌+◌, ◌-◌, ◌*◌, ◌/◌, ◌%◌, ◌^◌, ◌<◌, ◌≤◌};
ghost use Rattle.probe_core.specs.Order.{IsOrder, mixed_of, start_of, linear_place, step_of};
ghost use Rattle.probe_core.specs.Order.{odd_place, runs_place};
ghost use Rattle.probe_core.specs.Stepping.{linear_is_order, steps_are_order, runs_are_order};

use crate::capacities::Capacity;
use crate::keys::Key;

/// The order in which the slots of a table are probed for each key. A place is the index of a slot.
///
/// For each key, the first N places of its order, for N slots, are all slots, each once. That is a
/// law, which each implementation proves.
pub trait ProbeOrder: Copy {
    /// The exponent of the number of slots.
    ghost exponent: { Self → ℕ };

    /// The slot that is probed for a key at an index of its order, from 0: order, key, index.
    ghost place_of: { Self → ℕ → ℕ → ℕ };

    /// Returns the number of slots of the table, 2^k; contracts see the exponent k. It takes no
    /// memory.
    fn capacity(&self) -> Capacity
        ensures { result ≡ exponent self.now };

    /// Returns the index of the slot that is probed for the key after `i` other slots. `i` must be
    /// below the number of slots. It takes no memory.
    fn place(&self, key: Key, i: usize) -> usize
        requires { i < 2 ^ exponent self.now }
        ensures { result ≡ place_of self.now key i };

    /// For each key, the first N places of its order, for N slots, are all slots, each once.
    ghost is_order: { (order : Self) (key : ℕ) →
        IsOrder (2 ^ exponent order) (place_of order key) };
}

/// The multiplier of keys: 2^64 over the golden ratio, made odd. No claim rests on it.
const MULTIPLIER: u64 = 0x9E37_79B9_7F4A_7C15;

/// Returns the key's hash: the product of the key and `MULTIPLIER` mod 2^64.
fn mixed(key: Key) -> u64
    ensures value { result ≡ mixed_of key }
    ensures small { result < 2 ^ 64 }
{
    key.bits().wrapping_mul(MULTIPLIER)
}

/// Returns the slot that is probed first for a key, from its hash `mixed`: the top k bits, if the
/// `capacity` is 2^k slots.
fn start(mixed: u64, capacity: Capacity) -> usize
    ensures value { result ≡ start_of capacity mixed }
    ensures small { result < 2 ^ 22 }
{
    (mixed >> 1 >> (63 - capacity.exponent())) as usize
}

/// Linear probing: from a slot to the next one, and from the last slot to the first.
///
/// The slot at index i of a key's order is `(start + i) mod N` for N = 2^k slots. The start is the
/// top k bits of the key's product with a constant mod 2^64.
#[derive(Clone, Copy, Debug, PartialEq, Eq)]
pub struct Linear {
    /// The number of slots of the table, 2^k; contracts see the exponent k.
    pub capacity: Capacity,
}

impl ProbeOrder for Linear {
    ghost exponent = { λ order. order.capacity };

    ghost place_of = { λ order. linear_place order.capacity };

    fn capacity(&self) -> Capacity {
        let Linear { capacity } = *self;
        capacity
    }

    fn place(&self, key: Key, i: usize) -> usize {
        let slots = self.capacity.slots();
        (start(mixed(key), self.capacity) + i) & (slots - 1)
    }

    ghost is_order = { λ order key. linear_is_order order.capacity key };
}

/// Returns the odd step of a key, from its hash `mixed`: the hash over 2^20, mod the number of
/// slots (`capacity`), with the lowest bit set.
fn odd_step(mixed: u64, capacity: Capacity) -> usize
    ensures value { result ≡ step_of capacity mixed }
    ensures small { result ≤ 2 ^ 22 }
{
    ((mixed >> 20) as usize & (capacity.slots() - 1)) | 1
}

/// Double hashing: from slot to slot by an odd step, which depends on the key. This order is the
/// project's own.
///
/// The slot at index i of a key's order is `(start + i * s) mod N` for N slots. The start is that
/// of `Linear`: the top bits of the key's product with a constant mod 2^64. The step s is that
/// product over 2^20, mod N, with its lowest bit set.
#[derive(Clone, Copy, Debug, PartialEq, Eq)]
pub struct OddStep {
    /// The number of slots of the table, 2^k; contracts see the exponent k.
    pub capacity: Capacity,
}

impl ProbeOrder for OddStep {
    ghost exponent = { λ order. order.capacity };

    ghost place_of = { λ order. odd_place order.capacity };

    fn capacity(&self) -> Capacity {
        let OddStep { capacity } = *self;
        capacity
    }

    fn place(&self, key: Key, i: usize) -> usize {
        let slots = self.capacity.slots();
        let mixed = mixed(key);
        let step = odd_step(mixed, self.capacity);
        (start(mixed, self.capacity) + i * step) & (slots - 1)
    }

    ghost is_order = { λ order key. steps_are_order order.capacity key };
}

/// The number of neighbouring slots that are probed before a jump.
const RUN: usize = 16;

/// Probes runs of 16 neighbouring slots, and goes from run to run by a jump of 16 times an odd
/// step, which depends on the key. This order is the project's own.
///
/// The slot at index i of a key's order is `(start + i mod 16 + (i / 16) * 16 * s) mod N` for N
/// slots. The start and the step s are those of `OddStep`: both come from a hash of the key. So a
/// slot mostly lies in the same cache line as the one before it, or in the next line. In a table
/// that is nearly full, a key leaves the slots that other keys with its start have taken.
#[derive(Clone, Copy, Debug, PartialEq, Eq)]
pub struct OddRuns {
    /// The number of slots of the table, 2^k; contracts see the exponent k.
    pub capacity: Capacity,
}

impl ProbeOrder for OddRuns {
    ghost exponent = { λ order. order.capacity };

    ghost place_of = { λ order. runs_place order.capacity };

    fn capacity(&self) -> Capacity {
        let OddRuns { capacity } = *self;
        capacity
    }

    fn place(&self, key: Key, i: usize) -> usize {
        let slots = self.capacity.slots();
        let mixed = mixed(key);
        let step = odd_step(mixed, self.capacity);
        (start(mixed, self.capacity) + i % RUN + i / RUN * RUN * step) & (slots - 1)
    }

    ghost is_order = { λ order key. runs_are_order order.capacity key };
}
