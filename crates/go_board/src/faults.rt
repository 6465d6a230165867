//! What can go wrong when a board is made.
ghost use Rattle.std.specs.Prelude.{◌≡◌};
ghost use Rattle.go_board.specs.declared.faults.BoardFault.TheVariants.{Memory};

use std::alloc::{AllocError, AllocFailed};
use thiserror::Error;

/// Why no board was made.
#[derive(Clone, Copy, Debug, PartialEq, Eq, Error)]
pub enum BoardFault {
    /// Memory was refused.
    #[error("B1 no memory")]
    Memory,
}

impl From<AllocError> for BoardFault {
    ghost from_gives = { λ _ fault. fault ≡ Memory };

    fn from(_: AllocError) -> BoardFault {
        BoardFault::Memory
    }
}

impl<T: Drop> From<AllocFailed<T>> for BoardFault {
    ghost from_gives = { λ _ fault. fault ≡ Memory };

    fn from(_: AllocFailed<T>) -> BoardFault {
        BoardFault::Memory
    }
}
