//! Finds out why the table had no number (no free slot) for a pattern, from the rows of all shares
//! (what each worker has counted).
ghost use Rattle.std.specs.Prelude.{◌≡◌, ◌⊎◌, [], Some};
ghost use Rattle.std.specs.Bool.{OnTrue, OnFalse};
ghost use Rattle.slot_table.specs.Passes.{IsPassOf, IsLater};
ghost use Rattle.gather_core.specs.Gathering.{all_rows};
ghost use Rattle.table_shares.specs.Confirming.{HasShape, first_shape};
ghost use Rattle.table_shares.specs.Inner.Confirming.{IsLeastOf, IsOfRow};
ghost use Rattle.table_shares.specs.Confirming.{IsConfirmation};
ghost use Rattle.harvest_faults.specs.declared.faults.HarvestFault.TheVariants as fault;

use crate::leasts::{Sought, least_of};
use crate::numbers::sums_at;
use crate::shares::Share;
use crate::standing::{bits_of, word_of};
use harvest_faults::HarvestFault;
use probe_core::ProbeOrder;
use shape_core::Word;
use slot_table::{Pass, SlotTable};

/// Returns the least number (slot of the table) under which a share has a row (one pattern's
/// counts) of the pattern whose word has these bits; None if no share has one.
fn least_with(shares: &[Share], bits: u64) -> Option<usize>
    ensures { IsLeastOf bits (all_rows shares.now) result }
{
    least_of(shares, Sought::Pattern(bits)).map(|row| row.number)
}

/// Whether the share has a row (one pattern's counts) under the table's slot `number`, and the word
/// of that pattern has these bits.
fn has_there(share: &Share, number: usize, bits: u64) -> bool
    ensures { OnTrue result (HasShape share.now.rows bits) }
{
    match share.row_at(number) {
        Some(row) => row.shape.word().bits() == bits,
        None => false,
    }
}

/// Whether some share has a row (one pattern's counts) under the table's slot `number` whose
/// pattern's word has these bits.
fn any_there(shares: &[Share], number: usize, bits: u64) -> bool
    ensures { OnTrue result (HasShape (all_rows shares.now) bits) }
{
    for share in shares {
        if has_there(share, number, bits) {
            return true;
        }
    }
    false
}

/// Whether `found`, the key in the table's slot `number`, is the word of a pattern of which some
/// share has a row; false if it is None, as the slot is free. The shares' rows under that number
/// are looked at first: one of them has the pattern if the shares were counted over this table. A
/// look at all rows takes much longer.
fn is_known(shares: &[Share], number: usize, found: Option<u64>) -> bool
    ensures known { OnTrue result (IsOfRow (all_rows shares.now) found) }
    ensures unknown { OnFalse result (IsOfRow (all_rows shares.now) found → ⊥) }
{
    let Some(bits) = found else {
        return false;
    };
    any_there(shares, number, bits) || least_with(shares, bits).is_some()
}

/// Whether the table's slot `number` is taken by a pattern of which some share has a row (`found`
/// is the slot's key), and is not `least`, the least number under which a share has the pattern
/// that got no number.
fn agrees(shares: &[Share], number: usize, found: Option<u64>, least: Option<usize>) -> bool
    ensures yes { OnTrue result (IsOfRow (all_rows shares.now) found × (least ≡ Some number → ⊥)) }
    ensures no { OnFalse result
        ((IsOfRow (all_rows shares.now) found → ⊥) ⊎ (least ≡ Some number)) }
{
    least != Some(number) && is_known(shares, number, found)
}

/// Returns the fault `Stranger` at this number, with the pattern of the shares' first row under it,
/// if there is one, and with `of_table`, the pattern that the table has in that slot.
fn stranger_at(shares: &[Share], number: usize, of_table: Option<Word>) -> HarvestFault
    ensures { result ≡ fault.Stranger number (first_shape (all_rows shares.now) number) of_table }
{
    HarvestFault::Stranger {
        number,
        of_share: sums_at(shares, number, None).stranger,
        of_table,
    }
}

/// Returns the fault that says why the table had no number (no free slot) for a pattern of a game,
/// after `Share::add` has answered `Full`. `word` is that pattern's word. It takes no memory.
///
/// A share is what one worker has counted; each of its rows has the counts of one pattern, under
/// the pattern's number in the table. The answer is `HarvestFault::Full` with the game and the word
/// if table and shares agree: each number of the table has a pattern of which some share has a row,
/// and no share has a row of `word`. Then there are more patterns than numbers.
///
/// Else the answer is `HarvestFault::Stranger` at the least number where they disagree: it is free,
/// or has a pattern of no row, or some share has a row of `word` under it (which may be a number
/// that this table lacks, if a larger one gave it). `Stranger` has the pattern of the first row
/// under that number, in the order of the shares, and the table's pattern there; each may be None.
///
/// Each number up to that one is looked at once, in rising order, and the table isn't changed.
/// `pass` (the right to call the table, which notes its answers for proofs) must be of the table.
pub fn confirm_full<O: ProbeOrder>(
    table: &SlotTable<O>,
    pass: &mut Pass<O>,
    shares: &[Share],
    game: u64,
    word: Word,
) -> HarvestFault
    requires { IsPassOf table.now pass.old }
    ensures pass { IsPassOf table.now pass.new }
    ensures later { IsLater table.now.slots pass.old [] pass.new }
    ensures confirmed { IsConfirmation table.now.slots pass.new.seen (all_rows shares.now)
        game word result }
{
    let least = least_with(shares, word.bits());
    for number in 0..table.capacity().slots() {
        let found = bits_of(table.word_at(pass, number));
        if !agrees(shares, number, found, least) {
            return stranger_at(shares, number, word_of(found));
        }
    }
    match least {
        Some(number) => stranger_at(shares, number, None),
        None => HarvestFault::Full { game, word },
    }
}
