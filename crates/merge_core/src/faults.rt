//! What can go wrong when dictionaries are joined.
ghost use Rattle.std.specs.Prelude.{◌≡◌};
ghost use Rattle.merge_core.specs.Status.{status_of};

use shape_dict::DictFault;
use thiserror::Error;

/// Why dictionaries were not joined, or why their join was not written whole. `written` is how many
/// bytes of the text were written; faults without it come before any is written.
#[derive(Clone, Copy, Debug, PartialEq, Eq, Error)]
pub enum MergeFault {
    /// There is no dictionary.
    #[error("U1 usage")]
    Empty,
    /// Dictionary `n`, counted from 1, is not well-formed, or it cannot be added to those before
    /// it.
    #[error("dictionary {n}: {fault}")]
    Dict { n: usize, fault: DictFault },
    /// A read of dictionary `n`, counted from 1, failed, or what it gave in the second reading is
    /// not well-formed, or has a word outside of the range of words that was read.
    #[error("dictionary {n}: I1 read failed, {written} bytes written")]
    Read { n: usize, written: usize },
    /// The join of the second reading can't be made, or has another number of patterns than the
    /// join of the first.
    #[error("I1 read failed, {written} bytes written")]
    Changed { written: usize },
    /// A write failed.
    #[error("I2 write failed after {written} bytes")]
    Write { written: usize },
    /// Memory was refused.
    #[error("M1 no memory, {written} bytes written")]
    Memory { written: usize },
}

/// Returns the exit status for a fault: 2 usage, 3 input refused, 5 no memory, 6 read or write
/// failed.
pub fn status_of(fault: &MergeFault) -> u8
    ensures { result ≡ status_of fault.now }
{
    match fault {
        MergeFault::Empty => 2,
        MergeFault::Dict { .. } => 3,
        MergeFault::Memory { .. } => 5,
        MergeFault::Read { .. } | MergeFault::Changed { .. } | MergeFault::Write { .. } => 6,
    }
}
