//! What can go wrong when a table is made, or events of callers are simulated on one.
ghost use Rattle.std.specs.Prelude.{◌≡◌};
ghost use Rattle.probe_core.specs.declared.faults.ProbeFault.TheVariants.{Memory};

use std::alloc::{AllocError, AllocFailed};
use thiserror::Error;

/// Why a table or a `World` (a simulation of callers at a table) was not made, or why a world's
/// events were not run.
#[derive(Clone, Copy, Debug, PartialEq, Eq, Error)]
pub enum ProbeFault {
    /// Memory was refused.
    #[error("P1 no memory")]
    Memory,
    /// The events of all runs together would be more than 2^62.
    #[error("P2 too many events")]
    TooLong,
}

impl From<AllocError> for ProbeFault {
    ghost from_gives = { λ _ fault. fault ≡ Memory };

    fn from(_: AllocError) -> ProbeFault {
        ProbeFault::Memory
    }
}

impl<T: Drop> From<AllocFailed<T>> for ProbeFault {
    ghost from_gives = { λ _ fault. fault ≡ Memory };

    fn from(_: AllocFailed<T>) -> ProbeFault {
        ProbeFault::Memory
    }
}
