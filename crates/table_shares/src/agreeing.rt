//! Compares, for each pattern, the least game (the least number of a game) that the table has for
//! it with the least game in which workers counted it.
ghost use Rattle.std.specs.Prelude.{◌≡◌, ◌+◌, ◌<◌, List};
ghost use Rattle.slot_table.specs.Passes.{Known, IsPassOf};
ghost use Rattle.gather_core.specs.declared.rows.Row.{Row};
ghost use Rattle.harvest_faults.specs.declared.faults.HarvestFault.TheVariants as fault;
ghost use Rattle.table_shares.specs.Asking.{AsksOnly};
ghost use Rattle.table_shares.specs.Rows.{first_at};
ghost use Rattle.table_shares.specs.Inner.Visiting.{AgreeBelow};

use harvest_faults::HarvestFault;
use probe_core::ProbeOrder;
use slot_table::{Pass, SlotTable};

/// A slot of the table (a pattern's number) for which the least game that the table has,
/// `of_table`, is not the least one in which a worker counted the pattern, `of_shares`. None
/// stands for no game.
#[derive(Clone, Copy)]
pub(crate) struct Differs {
    pub number: usize,
    pub of_shares: Option<u64>,
    pub of_table: Option<u64>,
}

/// Returns the fault `Marks` (the least games of a pattern differ) with the pattern's number and
/// the two least games of `differs`.
pub(crate) fn marks_fault(differs: Differs) -> HarvestFault
    ensures { result ≡ fault.Marks differs.number differs.of_shares differs.of_table }
{
    HarvestFault::Marks {
        number: differs.number,
        of_shares: differs.of_shares,
        of_table: differs.of_table,
    }
}

/// Compares the least game that the table has for the pattern in slot `number` with `of_shares`,
/// the least one that workers counted. `pass` is the right to call the table. If the games differ,
/// `differs` is set to this number and both games. If `differs` is set already, by a lesser number,
/// nothing is done.
#[tactic(auto, using(gather_core::proofs::Calls::calls_self))]
pub(crate) fn compare<O: ProbeOrder>(
    table: &SlotTable<O>,
    pass: &mut Pass<O>,
    number: usize,
    of_shares: Option<u64>,
    differs: &mut Option<Differs>,
)
    requires pass { IsPassOf table.now pass.old }
    requires number { number < table.now.slots }
    ensures pass { IsPassOf table.now pass.new }
    ensures later { AsksOnly table.now.slots pass.old pass.new }
    ensures agree { (rows : List Row) → (first : Known O) → of_shares ≡ first_at rows number
        → AgreeBelow table.now.slots rows number first pass.old differs.old
        → AgreeBelow table.now.slots rows (number + 1) first pass.new differs.new }
{
    if differs.is_some() {
        return;
    }
    let of_table = table.first(pass, number);
    if of_shares == of_table {
        return;
    }
    *differs = Some(Differs {
        number,
        of_shares,
        of_table,
    });
}
