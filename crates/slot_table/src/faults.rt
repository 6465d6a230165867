//! What can go wrong when a table is made.
ghost use Rattle.std.specs.Prelude.{◌≡◌};
ghost use Rattle.slot_table.specs.declared.faults.SlotFault.TheVariants.{Memory};

use std::alloc::AllocError;
use thiserror::Error;

/// Why no table was made.
#[derive(Clone, Copy, Debug, PartialEq, Eq, Error)]
pub enum SlotFault {
    /// Memory was refused.
    #[error("Q1 no memory")]
    Memory,
}

impl From<AllocError> for SlotFault {
    ghost from_gives = { λ _ fault. fault ≡ Memory };

    fn from(_: AllocError) -> SlotFault {
        SlotFault::Memory
    }
}
