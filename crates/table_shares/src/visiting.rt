//! Visits each number (slot) of a table once, in rising order, and compares the table's pattern and
//! least game with those of the shares' rows (a share is what one worker has counted, a row of it
//! one pattern's counts). A pass is the right to call the table.
ghost use Rattle.std.specs.Prelude.{◌+◌, ◌<◌, IfErr, IfOk, OnOk};
ghost use Rattle.slot_table.specs.Passes.{Known, IsPassOf};
ghost use Rattle.table_shares.specs.Asking.{AsksOnly};
ghost use Rattle.gather_core.specs.Gathering.{all_rows};
ghost use Rattle.table_shares.specs.Checking.{StandBelow};
ghost use Rattle.table_shares.specs.Inner.Checking.{IsStandFault};
ghost use Rattle.table_shares.specs.Inner.Visiting.{AreVisited};

use crate::agreeing::{Differs, compare};
use crate::numbers::sums_at;
use crate::shares::Share;
use crate::standing::{bits_of, word_of};
use harvest_faults::HarvestFault;
use probe_core::ProbeOrder;
use slot_table::{Pass, SlotTable};

/// Compares the pattern and the least game that the table has in slot `number` with those of the
/// shares' rows of that number. `Stranger` if a row is of another pattern than the table's, or the
/// slot is free and there is a row. If the least games differ, `differs` is set, unless a lesser
/// number has set it.
fn visit<O: ProbeOrder>(
    table: &SlotTable<O>,
    pass: &mut Pass<O>,
    shares: &[Share],
    number: usize,
    differs: &mut Option<Differs>,
) -> Result<(), HarvestFault>
    requires pass { IsPassOf table.now pass.old }
    requires number { number < table.now.slots }
    ensures pass { IsPassOf table.now pass.new }
    ensures later { AsksOnly table.now.slots pass.old pass.new }
    ensures ok { OnOk result ((first : Known O)
        → AreVisited table.now.slots (all_rows shares.now) number first pass.old differs.old
        → AreVisited table.now.slots (all_rows shares.now) (number + 1) first pass.new
        differs.new) }
    ensures fault { IfErr result (λ found.
        StandBelow table.now.slots pass.old.seen (all_rows shares.now) number
        → IsStandFault table.now.slots pass.new.seen (all_rows shares.now) found) }
{
    let found = bits_of(table.word_at(pass, number));
    let sums = sums_at(shares, number, found);
    if let Some(held) = sums.stranger {
        return Err(HarvestFault::stranger(number, held, word_of(found)));
    }
    compare(table, pass, number, sums.first, differs);
    Ok(())
}

/// Compares the pattern in each slot of the table with the shares' rows of that number, in rising
/// order, and its least game too, until one differs. Returns that number with both games, or None
/// if none differs. `Stranger` at the first number of which a row is of another pattern than the
/// table's, or whose slot is free though there is a row.
#[tactic(auto, using(gather_core::proofs::Calls::calls_self))]
pub(crate) fn visit_all<O: ProbeOrder>(
    table: &SlotTable<O>,
    pass: &mut Pass<O>,
    shares: &[Share],
) -> Result<Option<Differs>, HarvestFault>
    requires pass { IsPassOf table.now pass.old }
    ensures pass { IsPassOf table.now pass.new }
    ensures later { AsksOnly table.now.slots pass.old pass.new }
    ensures ok { IfOk result (AreVisited table.now.slots (all_rows shares.now) table.now.slots
        pass.old pass.new) }
    ensures fault { IfErr result
        (IsStandFault table.now.slots pass.new.seen (all_rows shares.now)) }
{
    let mut differs = None;
    for number in 0..table.capacity().slots() {
        visit(table, pass, shares, number, &mut differs)?;
    }
    Ok(differs)
}
