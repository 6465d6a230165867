//! What can go wrong in a run, the line that says so, and the exit status.
ghost use Rattle.std.specs.Prelude.{◌≡◌};
ghost use Rattle.engine_core.specs.Status.{status_of};
ghost use Rattle.engine_core.specs.declared.faults.RunFault.TheVariants.{Memory, Sgf, Record, Board};
ghost use Rattle.engine_core.specs.declared.faults.RunFault.TheVariants.{Harvest, Dict};

use go_board::BoardFault;
use go_record::RecordFault;
use harvest_faults::HarvestFault;
use sgf_core::SgfFault;
use shape_core::GlyphFault;
use shape_dict::DictFault;
use std::alloc::{AllocError, AllocFailed};
use std::fmt;
use thiserror::Error;

/// Why a run ended without its answer. The fault's text follows `shapes: ` on standard error.
#[derive(Clone, Copy, Debug, PartialEq, Eq, Error)]
pub enum RunFault {
    /// The collection cannot be read.
    #[error("{0}")]
    Sgf(SgfFault),
    /// A tree of the collection gives no record of a game.
    #[error("{0}")]
    Record(RecordFault),
    /// There was no memory for the board.
    #[error("{0}")]
    Board(BoardFault),
    /// The words of the command line spell no pattern.
    #[error("{0}")]
    Glyph(GlyphFault),
    /// The collection was not counted.
    #[error("{0}")]
    Harvest(HarvestFault),
    /// Dictionary `n` of the input, counted from 1, cannot be read, or it cannot be added to those
    /// before it.
    #[error("{}", DictLine {n: *.n, fault: *.fault})]
    Dict { n: usize, fault: DictFault },
    /// The program does not know the words of the command line.
    #[error("U1 usage")]
    Usage,
    /// A read of the input failed.
    #[error("I1 read failed")]
    Read,
    /// A write failed; exactly `written` bytes of the text were written.
    #[error("I2 write failed after {written} bytes")]
    Write { written: usize },
    /// There was no memory for the input, the text or the words of the command line.
    #[error("M1 no memory")]
    Memory,
}

impl From<SgfFault> for RunFault {
    ghost from_gives = { λ cause fault. fault ≡ Sgf cause };

    fn from(cause: SgfFault) -> RunFault {
        RunFault::Sgf(cause)
    }
}

impl From<RecordFault> for RunFault {
    ghost from_gives = { λ cause fault. fault ≡ Record cause };

    fn from(cause: RecordFault) -> RunFault {
        RunFault::Record(cause)
    }
}

impl From<BoardFault> for RunFault {
    ghost from_gives = { λ cause fault. fault ≡ Board cause };

    fn from(cause: BoardFault) -> RunFault {
        RunFault::Board(cause)
    }
}

impl From<HarvestFault> for RunFault {
    ghost from_gives = { λ cause fault. fault ≡ Harvest cause };

    fn from(cause: HarvestFault) -> RunFault {
        RunFault::Harvest(cause)
    }
}

/// Makes the fault of dictionary 1, the only dictionary of a run or its first.
impl From<DictFault> for RunFault {
    ghost from_gives = { λ cause fault. fault ≡ Dict 1 cause };

    fn from(cause: DictFault) -> RunFault {
        RunFault::Dict { n: 1, fault: cause }
    }
}

impl From<AllocError> for RunFault {
    ghost from_gives = { λ _ fault. fault ≡ Memory };

    fn from(_: AllocError) -> RunFault {
        RunFault::Memory
    }
}

impl<T: Drop> From<AllocFailed<T>> for RunFault {
    ghost from_gives = { λ _ fault. fault ≡ Memory };

    fn from(_: AllocFailed<T>) -> RunFault {
        RunFault::Memory
    }
}

/// The fault of dictionary `n`, to be printed. Too large an input and a lack of memory concern no
/// one dictionary, so these are printed without the number.
#[derive(Clone, Copy)]
struct DictLine {
    n: usize,
    fault: DictFault,
}

impl fmt::Display for DictLine {
    fn fmt<W: fmt::Write>(&self, f: &mut fmt::Formatter<W>) -> fmt::Result {
        match self.fault {
            DictFault::TooLarge | DictFault::Memory => write!(f, "{}", self.fault),
            _ => write!(f, "dictionary {}: {}", self.n, self.fault),
        }
    }
}

/// Returns the exit status of a fault: 2 usage, 3 input refused, 4 table full, 5 no memory, 6 read
/// or write failed.
pub fn status_of(fault: &RunFault) -> u8
    ensures { result ≡ status_of fault.now }
{
    match fault {
        RunFault::Sgf(SgfFault::Memory)
        | RunFault::Record(RecordFault::Memory)
        | RunFault::Board(BoardFault::Memory)
        | RunFault::Harvest(HarvestFault::Memory)
        | RunFault::Harvest(HarvestFault::Sgf(SgfFault::Memory))
        | RunFault::Dict {
            fault: DictFault::Memory,
            ..
        }
        | RunFault::Memory => 5,
        RunFault::Sgf(_)
        | RunFault::Record(_)
        | RunFault::Harvest(
            HarvestFault::Sgf(_)
            | HarvestFault::Missing(_)
            | HarvestFault::Twice(_)
            | HarvestFault::Stranger { .. }
            | HarvestFault::Marks { .. }
            | HarvestFault::Overflow,
        )
        | RunFault::Dict { .. } => 3,
        RunFault::Harvest(HarvestFault::Full { .. }) => 4,
        RunFault::Glyph(_) | RunFault::Harvest(HarvestFault::BadSettings) | RunFault::Usage => 2,
        RunFault::Read | RunFault::Write { .. } => 6,
    }
}
