//! Keys: the whole numbers that are entered into a table, each of which gets a slot's index there.
use std::marker::Model;

/// A key: a whole number below 2^51, as the canonical word of a pattern is. The bound is this
/// project's own.
#[derive(Clone, Copy, Debug, PartialEq, Eq, PartialOrd, Ord)]
pub struct Key {
    bits: u64,
}

impl Model for Key {
    ghost use Rattle.std.specs.Prelude.{ℕ, ◌<◌, ◌^◌};

    ghost Value = { ℕ };

    ghost view = { λ key. key.bits };

    ghost invariant = { λ key. key.bits < 2 ^ 51 };

    ghost inverse = { λ n. record { bits = n } };
}

impl Key {
    ghost use Rattle.std.specs.Prelude.{◌≡◌, ◌<◌, ◌^◌, SomeIff};

    /// Returns the key that is this number, or None if it is 2^51 or more. It takes no memory.
    pub fn new(bits: u64) -> Option<Key>
        ensures { SomeIff result (bits < 2 ^ 51) bits }
    {
        if bits < 1 << 51 {
            Some(Key { bits })
        } else {
            None
        }
    }

    /// Returns the whole number that the key is. It takes no memory.
    pub fn bits(self) -> u64
        ensures value { result ≡ self }
        ensures small { self < 2 ^ 51 }
    {
        self.bits
    }
}
