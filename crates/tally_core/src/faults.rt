//! What can go wrong in counting.
ghost use Rattle.std.specs.Prelude.{◌≡◌};
ghost use Rattle.tally_core.specs.declared.faults.TallyFault.TheVariants.{Memory};

use game_core::GamesFault;
use go_board::BoardFault;
use sgf_core::SgfFault;
use std::alloc::{AllocError, AllocFailed};
use thiserror::Error;

/// Why no dictionary was made.
#[derive(Clone, Copy, Debug, PartialEq, Eq, Error)]
pub enum TallyFault {
    /// The workers are outside 1 to 64, or the exponent k of the table of 2^k slots is over 22.
    #[error("F5 bad settings")]
    BadSettings,
    /// Memory was refused.
    #[error("F6 no memory")]
    Memory,
    /// The collection has this fault: it is too large, or a tree has a fault of syntax.
    #[error("{0}")]
    Sgf(SgfFault),
    /// A count is over 2^64 - 1, or a game has at least 2^64 / 5410 actions.
    #[error("F8 count too large")]
    Overflow,
}

impl From<AllocError> for TallyFault {
    ghost from_gives = { λ _ fault. fault ≡ Memory };

    fn from(_: AllocError) -> TallyFault {
        TallyFault::Memory
    }
}

impl<T: Drop> From<AllocFailed<T>> for TallyFault {
    ghost from_gives = { λ _ fault. fault ≡ Memory };

    fn from(_: AllocFailed<T>) -> TallyFault {
        TallyFault::Memory
    }
}

impl From<BoardFault> for TallyFault {
    ghost from_gives = { λ _ fault. fault ≡ Memory };

    fn from(fault: BoardFault) -> TallyFault {
        match fault {
            BoardFault::Memory => TallyFault::Memory,
        }
    }
}

impl From<GamesFault> for TallyFault {
    ghost use Rattle.tally_core.specs.Faults.{reading_fault};

    ghost from_gives = { λ found fault. fault ≡ reading_fault found };

    fn from(found: GamesFault) -> TallyFault {
        match found {
            GamesFault::Sgf(fault) => TallyFault::Sgf(fault),
            GamesFault::Memory => TallyFault::Memory,
        }
    }
}
