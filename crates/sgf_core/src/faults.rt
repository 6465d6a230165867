//! What can be wrong with a collection.
ghost use Rattle.std.specs.Prelude.{◌≡◌};
ghost use Rattle.sgf_core.specs.declared.faults.SgfFault.TheVariants.{Memory};

use std::alloc::{AllocError, AllocFailed};
use thiserror::Error;

/// Why no tree was read: its bytes break the grammar of SGF FF[4], the input is over this project's
/// own limit, or memory was refused. The number in a fault is a byte offset in the whole input.
#[derive(Clone, Copy, Debug, PartialEq, Eq, Error)]
pub enum SgfFault {
    /// The input ends within the tree whose first parenthesis is at this byte offset.
    #[error("S1 truncated tree at {0}")]
    Truncated(usize),
    /// The byte at this offset may not stand there: some tree begins with this tree's bytes before
    /// it, but no tree goes on with this byte.
    #[error("S2 bad byte at {0}")]
    BadByte(usize),
    /// An identifier has no value: the byte at this offset comes after it and any white space,
    /// where its first value has to come.
    #[error("S3 no value at {0}")]
    NoValue(usize),
    /// The input has more than `MOST_BYTES` bytes, 2^28.
    #[error("S4 input too large")]
    TooLarge,
    /// Memory was refused.
    #[error("S5 no memory")]
    Memory,
}

impl From<AllocError> for SgfFault {
    ghost from_gives = { λ _ fault. fault ≡ Memory };

    fn from(_: AllocError) -> SgfFault {
        SgfFault::Memory
    }
}

impl<T: Drop> From<AllocFailed<T>> for SgfFault {
    ghost from_gives = { λ _ fault. fault ≡ Memory };

    fn from(_: AllocFailed<T>) -> SgfFault {
        SgfFault::Memory
    }
}
