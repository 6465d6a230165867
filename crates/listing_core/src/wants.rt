//! What memory was refused for, and the fault of the run.
ghost use Rattle.std.specs.Prelude.{◌≡◌};
ghost use Rattle.listing_core.specs.Inner.Wants.{fault_of};
ghost use Rattle.listing_core.specs.declared.wants.Want.TheVariants.{Board, Text};

use engine_core::RunFault;
use go_board::BoardFault;
use go_record::RecordFault;
use sgf_core::SgfFault;
use std::alloc::{AllocError, AllocFailed};

/// What memory was refused for while the trees of an input were read. Steps return this and not
/// `RunFault`, which is too large for that; a `RunFault` is made from it at the end.
#[derive(Clone, Copy, Debug, PartialEq, Eq)]
pub enum Want {
    /// A tree: the run's fault is S5.
    Tree,
    /// The record of a tree: the run's fault is G4.
    Record,
    /// The board of a game: the run's fault is B1.
    Board,
    /// All else, such as what is written: the run's fault is `Memory`.
    Text,
}

impl From<AllocError> for Want {
    ghost from_gives = { λ _ want. want ≡ Text };

    fn from(_: AllocError) -> Want {
        Want::Text
    }
}

impl<T: Drop> From<AllocFailed<T>> for Want {
    ghost from_gives = { λ _ want. want ≡ Text };

    fn from(_: AllocFailed<T>) -> Want {
        Want::Text
    }
}

impl From<BoardFault> for Want {
    ghost from_gives = { λ _ want. want ≡ Board };

    fn from(_: BoardFault) -> Want {
        Want::Board
    }
}

impl From<Want> for RunFault {
    ghost from_gives = { λ want fault. fault ≡ fault_of want };

    fn from(want: Want) -> RunFault {
        match want {
            Want::Tree => RunFault::Sgf(SgfFault::Memory),
            Want::Record => RunFault::Record(RecordFault::Memory),
            Want::Board => RunFault::Board(BoardFault::Memory),
            Want::Text => RunFault::Memory,
        }
    }
}
