//! What can be wrong with a text of a dictionary, or with a join.
ghost use Rattle.std.specs.Prelude.{◌≡◌};
ghost use Rattle.shape_dict.specs.declared.faults.DictFault.TheVariants.{Memory};

use std::alloc::{AllocError, AllocFailed};
use thiserror::Error;

/// Why no dictionary was read, written or made. Lines count from 1 at the dictionary's header.
#[derive(Clone, Copy, Debug, PartialEq, Eq, Error)]
pub enum DictFault {
    /// The input does not begin with a header.
    #[error("X1 bad header")]
    BadHeader,
    /// The line of this number is missing, is not well-formed or can't come there, or bytes follow
    /// the text.
    #[error("X2 bad line {0}")]
    BadLine(u64),
    /// A line's word is not above that of the line before.
    #[error("X3 not rising at line {0}")]
    NotRising(u64),
    /// A line's word is not the least of its images under symmetries and exchange of colours.
    #[error("X4 not canonical at line {0}")]
    NotCanonical(u64),
    /// The patterns were not played as often, in all, as there are moves, or there are moves and no
    /// games.
    #[error("X5 wrong totals")]
    WrongTotals,
    /// Memory was refused.
    #[error("X6 no memory")]
    Memory,
    /// A sum is over 2^64 - 1.
    #[error("X7 sum too large")]
    Overflow,
    /// The input has more than 2^28 bytes.
    #[error("X8 input too large")]
    TooLarge,
    /// One of two dictionaries counts diamonds and the other does not.
    #[error("X9 mixed kinds")]
    MixedKinds,
}

impl From<AllocError> for DictFault {
    ghost from_gives = { λ _ fault. fault ≡ Memory };

    fn from(_: AllocError) -> DictFault {
        DictFault::Memory
    }
}

impl<T: Drop> From<AllocFailed<T>> for DictFault {
    ghost from_gives = { λ _ fault. fault ≡ Memory };

    fn from(_: AllocFailed<T>) -> DictFault {
        DictFault::Memory
    }
}
