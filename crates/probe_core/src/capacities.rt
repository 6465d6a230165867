//! Capacities: how many slots a table has.
use std::marker::Model;

/// How many slots a table has: a power of two, up to 2^22. The bound is the project's own.
///
/// Contracts see it as the exponent of 2, a number up to 22.
#[derive(Clone, Copy, Debug, PartialEq, Eq, PartialOrd, Ord)]
pub struct Capacity {
    exponent: u32,
}

impl Model for Capacity {
    ghost use Rattle.std.specs.Prelude.{ℕ, ◌≤◌};

    ghost Value = { ℕ };

    ghost view = { λ capacity. capacity.exponent };

    ghost invariant = { λ capacity. capacity.exponent ≤ 22 };

    ghost inverse = { λ n. record { exponent = n } };
}

impl Capacity {
    ghost use Rattle.std.specs.Prelude.{◌≡◌, ◌≤◌, ◌^◌, SomeIff};

    /// Returns the capacity of 2^k slots, or None if k is above 22. It takes no memory.
    pub fn new(k: u32) -> Option<Capacity>
        ensures { SomeIff result (k ≤ 22) k }
    {
        if k <= 22 {
            Some(Capacity { exponent: k })
        } else {
            None
        }
    }

    /// Returns the number of slots: a power of two from 1 to 2^22. It takes no memory.
    pub fn slots(self) -> usize
        ensures value { result ≡ 2 ^ self }
        ensures some { 1 ≤ result }
        ensures few { result ≤ 2 ^ 22 }
    {
        1 << self.exponent
    }

    /// Returns the exponent k of the 2^k slots.
    pub(crate) fn exponent(self) -> u32
        ensures value { result ≡ self }
        ensures small { self ≤ 22 }
    {
        self.exponent
    }
}
