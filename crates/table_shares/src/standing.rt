//! Finds rows of shares (one pattern's counts each) whose numbers (slots) are beyond the table, and
//! turns the table's keys into words of patterns.
ghost use Rattle.std.specs.Prelude.{◌≡◌, ◌^◌, ◌<◌, IfSome, OnOk, IfErr};
ghost use Rattle.gather_core.specs.Gathering.{all_rows};
ghost use Rattle.table_shares.specs.Inner.Checking.{IsBeyondFault};
ghost use Rattle.table_shares.specs.Rows.{AreBelow};

use crate::leasts::{Sought, least_of};
use crate::shares::Share;
use harvest_faults::HarvestFault;
use probe_core::Key;
use shape_core::Word;

/// Returns the key as a whole number; None if `key` is None.
pub(crate) fn bits_of(key: Option<Key>) -> Option<u64>
    ensures bits { result ≡ key }
    ensures small { IfSome result (λ bits. bits < 2 ^ 51) }
{
    key.map(|key| key.bits())
}

/// Returns the pattern's word with these bits, which are below 2^51; None if `bits` is None.
pub(crate) fn word_of(bits: Option<u64>) -> Option<Word>
    requires { IfSome bits (λ bits. bits < 2 ^ 51) }
    ensures { result ≡ bits }
{
    bits.and_then(|bits| Word::new(bits))
}

/// Checks that the numbers of all shares' rows are below `slots`, the number of the table's slots.
/// If some are not, it returns `Stranger` with the least of these and its pattern.
pub(crate) fn check_beyond(shares: &[Share], slots: usize) -> Result<(), HarvestFault>
    ensures ok { OnOk result (AreBelow slots (all_rows shares.now)) }
    ensures fault { IfErr result (IsBeyondFault slots (all_rows shares.now)) }
{
    match least_of(shares, Sought::From(slots)) {
        None => Ok(()),
        Some(row) => Err(HarvestFault::Stranger {
            number: row.number,
            of_share: Some(row.shape.word()),
            of_table: None,
        }),
    }
}
