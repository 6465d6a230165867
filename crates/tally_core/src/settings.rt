//! How a collection is counted: by how many workers, in how large a table, and which kinds of
//! pattern.
ghost use Rattle.std.specs.Prelude.{◌≡◌};
ghost use Rattle.tally_core.specs.Games.{counts_diamonds};

use crate::faults::TallyFault;
use shape_core::Kinds;
use std::marker::Model;

/// How a collection is counted: by how many workers (1 to 64), over a table of how many slots (2^k,
/// with k from 0 to 22), and which kinds of pattern.
#[derive(Clone, Copy, Debug, PartialEq, Eq)]
pub struct Settings {
    workers: u8,
    exponent: u8,
    kinds: Kinds,
}

impl Model for Settings {
    ghost use Rattle.tally_core.specs.Limits.{Limits, AreLimits};

    ghost Value = { Limits };

    ghost view = { λ s. record { workers = s.workers; k = s.exponent; kinds = s.kinds } };

    ghost invariant = { λ s. AreLimits (record {
      workers = s.workers;
      k = s.exponent;
      kinds = s.kinds;
    }) };

    ghost inverse = { λ l. record { workers = l.workers; exponent = l.k; kinds = l.kinds } };
}

impl Settings {
    ghost use Rattle.std.specs.Prelude.{◌≡◌, ◌↔◌, IsOk, IfOk, IfErr};
    ghost use Rattle.shape_core.specs.declared.words.Kinds.TheVariants as kinds;
    ghost use Rattle.tally_core.specs.Limits.{AreLimits};
    ghost use Rattle.tally_core.specs.declared.faults.TallyFault.TheVariants as fault;

    /// Makes settings for this many `workers` and a table of 2^`k` slots, which count squares
    /// alone.
    ///
    /// # Errors
    ///
    /// `TallyFault::BadSettings` if the workers are outside 1 to 64, or k is over 22.
    pub fn new(workers: u8, k: u8) -> Result<Settings, TallyFault>
        ensures ok { IsOk result ↔ AreLimits (record {
          workers = workers;
          k = k;
          kinds = kinds.Squares;
        }) }
        ensures value { IfOk result (λ settings. settings
            ≡ record { workers = workers; k = k; kinds = kinds.Squares }) }
        ensures fault { IfErr result (λ found. found ≡ fault.BadSettings) }
    {
        if workers < 1 || workers > 64 || k > 22 {
            return Err(TallyFault::BadSettings);
        }
        Ok(Settings {
            workers,
            exponent: k,
            kinds: Kinds::Squares,
        })
    }

    /// Returns these settings with `kinds` as the kinds of pattern that are counted.
    pub fn with(self, kinds: Kinds) -> Settings
        ensures { result ≡ record self { kinds = kinds } }
    {
        Settings { kinds, ..self }
    }

    /// Returns how many workers count, from 1 to 64.
    pub fn workers(self) -> u8
        ensures { result ≡ self.workers }
    {
        self.workers
    }

    /// Returns the exponent k, from 0 to 22: the table has 2^k slots.
    pub fn k(self) -> u8
        ensures { result ≡ self.k }
    {
        self.exponent
    }

    /// Returns the kinds of pattern that are counted.
    pub fn kinds(self) -> Kinds
        ensures { result ≡ self.kinds }
    {
        self.kinds
    }
}

/// Returns whether `kinds` has diamonds (the patterns of all points at most three steps away)
/// besides squares.
pub fn has_diamonds(kinds: Kinds) -> bool
    ensures { result ≡ counts_diamonds kinds }
{
    match kinds {
        Kinds::Squares => false,
        Kinds::Both => true,
    }
}
