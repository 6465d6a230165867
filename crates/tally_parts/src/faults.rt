//! What can go wrong when collections are counted in parts.
ghost use Rattle.std.specs.Prelude.{◌≡◌};
ghost use Rattle.tally_parts.specs.Status.{status_of};
ghost use Rattle.tally_parts.specs.declared.faults.PartsFault.TheVariants.{Memory};

use harvest_faults::HarvestFault;
use merge_core::MergeFault;
use std::alloc::{AllocError, AllocFailed};
use thiserror::Error;

/// Why no dictionary of all games was written, or not the whole one.
#[derive(Clone, Copy, Debug, PartialEq, Eq, Error)]
pub enum PartsFault {
    /// Memory was refused.
    #[error("M1 no memory")]
    Memory,
    /// `Texts::is_wanted` returned false, once all texts were read and checked.
    #[error("no dictionary is wanted")]
    Unwanted,
    /// A part was not counted, though each of its texts can be read.
    #[error("{0}")]
    Count(HarvestFault),
    /// The dictionary of a part could not be written or stored for the join.
    #[error("I2 the dictionary of a part could not be kept")]
    Spill,
    /// The parts' dictionaries were not joined.
    #[error("{0}")]
    Merge(MergeFault),
    /// A write failed, after `written` bytes of the text.
    #[error("I2 write failed after {written} bytes")]
    Write { written: usize },
}

/// Returns the exit status of a fault: 1 for `Unwanted`; 5 if memory was refused, also while a part
/// was counted; 6 if a dictionary could not be stored, read again, joined or written.
pub fn status_of(fault: &PartsFault) -> u8
    ensures { result ≡ status_of fault.now }
{
    match fault {
        PartsFault::Unwanted => 1,
        PartsFault::Memory | PartsFault::Count(_) | PartsFault::Merge(MergeFault::Memory { .. }) =>
            5,
        PartsFault::Spill | PartsFault::Merge(_) | PartsFault::Write { .. } => 6,
    }
}

impl From<AllocError> for PartsFault {
    ghost from_gives = { λ _ fault. fault ≡ Memory };

    fn from(_: AllocError) -> PartsFault {
        PartsFault::Memory
    }
}

impl<T: Drop> From<AllocFailed<T>> for PartsFault {
    ghost from_gives = { λ _ fault. fault ≡ Memory };

    fn from(_: AllocFailed<T>) -> PartsFault {
        PartsFault::Memory
    }
}
