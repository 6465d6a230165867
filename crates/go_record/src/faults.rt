//! What can be wrong with a record.
ghost use Rattle.std.specs.Prelude.{◌≡◌};
ghost use Rattle.go_record.specs.declared.faults.RecordFault.TheVariants.{Memory};

use std::alloc::{AllocError, AllocFailed};
use thiserror::Error;

/// Why a tree gives no record. The number in a fault is the byte offset, in the whole input, of the
/// first byte of the value at fault.
#[derive(Clone, Copy, Debug, PartialEq, Eq, Error)]
pub enum RecordFault {
    /// The board's size is not one from 1 to 52 by 1 to 52.
    #[error("G1 bad size at {0}")]
    BadSize(usize),
    /// A point, a rectangle or a move is not spelled as one.
    #[error("G2 bad point at {0}")]
    BadPoint(usize),
    /// A point lies off the board.
    #[error("G3 off the board at {0}")]
    OffBoard(usize),
    /// Memory was refused.
    #[error("G4 no memory")]
    Memory,
}

impl From<AllocError> for RecordFault {
    ghost from_gives = { λ _ fault. fault ≡ Memory };

    fn from(_: AllocError) -> RecordFault {
        RecordFault::Memory
    }
}

impl<T: Drop> From<AllocFailed<T>> for RecordFault {
    ghost from_gives = { λ _ fault. fault ≡ Memory };

    fn from(_: AllocFailed<T>) -> RecordFault {
        RecordFault::Memory
    }
}
