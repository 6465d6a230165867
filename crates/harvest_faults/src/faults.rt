//! What can go wrong in counting with shares, each of which is what one worker has counted.
ghost use Rattle.std.specs.Prelude.{◌≡◌};
ghost use Rattle.harvest_faults.specs.declared.faults.HarvestFault.TheVariants.{Memory};

use game_core::GamesFault;
use sgf_core::SgfFault;
use shape_core::Word;
use slot_table::SlotFault;
use std::alloc::{AllocError, AllocFailed};
use tally_core::TallyFault;
use thiserror::Error;

/// Why no dictionary was made.
#[derive(Clone, Copy, Debug, PartialEq, Eq, Error)]
pub enum HarvestFault {
    /// No number is left for the pattern `word`: the shared table has no free slot, or the
    /// collection has more patterns than may be counted. `game` is the number of a game that has
    /// it, or 0 if none is known.
    #[error("F1 full in game {game} at {:013x}", word.bits())]
    Full {
        game: u64,
        word: Word,
    },
    /// No share (what one worker has counted) has the game of this number.
    #[error("F2 missing game {0}")]
    Missing(u64),
    /// The shares (what each worker has counted) have the game of this number twice.
    #[error("F3 game {0} twice")]
    Twice(u64),
    /// The shares (what each worker has counted, listed by the slots that the patterns have in the
    /// shared table) and that table disagree on the slot `number`. `of_share` is the pattern that a
    /// share has under that number, None if no share has one. `of_table` is the table's pattern in
    /// that slot, None if the slot is free. From `confirm_full` of `table_shares` both may be the
    /// same: then a share has counts of the pattern that was refused.
    #[error("F4 stranger at number {number}")]
    Stranger {
        number: usize,
        of_share: Option<Word>,
        of_table: Option<Word>,
    },
    /// There are not 1 to 64 workers, or there are to be more than 2^22 slots.
    #[error("F5 bad settings")]
    BadSettings,
    /// Memory was refused.
    #[error("F6 no memory")]
    Memory,
    /// The collection has this fault: it is too large, or a tree has a fault of syntax.
    #[error("{0}")]
    Sgf(SgfFault),
    /// A count is over 2^64 - 1, or a game has more actions than any input.
    #[error("F8 count too large")]
    Overflow,
    /// The shared table's note of the least game that has the pattern in its slot `number`
    /// (`of_table`) is not the least game that the shares (what each worker has counted) have under
    /// that number (`of_shares`).
    #[error("F9 mark differs at number {number}")]
    Marks {
        number: usize,
        of_shares: Option<u64>,
        of_table: Option<u64>,
    },
}

impl HarvestFault {
    ghost use Rattle.std.specs.Prelude.{◌≡◌, Some};
    ghost use Rattle.harvest_faults.specs.declared.faults.HarvestFault.TheVariants as fault;
    ghost use Rattle.harvest_faults.specs.Faults.{same_fault};

    /// Makes the `Stranger` fault: a share (what one worker has counted) has the pattern `held`
    /// under this `number`, and the shared table has `of_table` in that slot: another pattern, or
    /// None if the slot is free.
    pub fn stranger(number: usize, held: Word, of_table: Option<Word>) -> HarvestFault
        ensures { result ≡ fault.Stranger number (Some held) of_table }
    {
        HarvestFault::Stranger {
            number,
            of_share: Some(held),
            of_table,
        }
    }

    /// Returns the `HarvestFault` of the same name for a fault of counting on one thread. It takes
    /// no memory.
    pub fn of_tally(fault: TallyFault) -> HarvestFault
        ensures { result ≡ same_fault fault }
    {
        match fault {
            TallyFault::BadSettings => HarvestFault::BadSettings,
            TallyFault::Memory => HarvestFault::Memory,
            TallyFault::Sgf(found) => HarvestFault::Sgf(found),
            TallyFault::Overflow => HarvestFault::Overflow,
        }
    }
}

impl From<AllocError> for HarvestFault {
    ghost from_gives = { λ _ fault. fault ≡ Memory };

    fn from(_: AllocError) -> HarvestFault {
        HarvestFault::Memory
    }
}

impl<T: Drop> From<AllocFailed<T>> for HarvestFault {
    ghost from_gives = { λ _ fault. fault ≡ Memory };

    fn from(_: AllocFailed<T>) -> HarvestFault {
        HarvestFault::Memory
    }
}

impl From<SlotFault> for HarvestFault {
    ghost from_gives = { λ _ fault. fault ≡ Memory };

    fn from(fault: SlotFault) -> HarvestFault {
        match fault {
            SlotFault::Memory => HarvestFault::Memory,
        }
    }
}

impl From<TallyFault> for HarvestFault {
    ghost use Rattle.harvest_faults.specs.Faults.{same_fault};

    ghost from_gives = { λ found fault. fault ≡ same_fault found };

    fn from(found: TallyFault) -> HarvestFault {
        HarvestFault::of_tally(found)
    }
}

impl From<GamesFault> for HarvestFault {
    ghost use Rattle.tally_core.specs.Faults.{reading_fault};
    ghost use Rattle.harvest_faults.specs.Faults.{same_fault};

    ghost from_gives = { λ found fault. fault ≡ same_fault (reading_fault found) };

    fn from(found: GamesFault) -> HarvestFault {
        HarvestFault::of_tally(TallyFault::from(found))
    }
}
