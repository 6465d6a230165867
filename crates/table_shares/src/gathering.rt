//! Merges shares (what each worker has counted) into a dictionary, and checks them against the
//! table.
ghost use Rattle.std.specs.Prelude.{◌≡◌, ◌<◌, All, OnOk, IfOk, IfErr};
ghost use Rattle.slot_table.specs.Passes.{IsPassOf};
ghost use Rattle.table_shares.specs.Agreeing.{AskedAll};
ghost use Rattle.gather_core.specs.Gathering.{all_rows};
ghost use Rattle.table_shares.specs.Checking.{Stand};
ghost use Rattle.gather_core.specs.Covering.{all_games, Covers};
ghost use Rattle.table_shares.specs.Asking.{AsksOnly};
ghost use Rattle.gather_core.specs.Gathering.{IsGathered};
ghost use Rattle.table_shares.specs.GatherFaults.{IsGatherFault};

use crate::adding_up::add_up;
use crate::agreeing::marks_fault;
use crate::covering::check_games;
use crate::shares::Share;
use crate::standing::check_beyond;
use crate::totals::entries_of;
use crate::visiting::visit_all;
use harvest_faults::HarvestFault;
use probe_core::ProbeOrder;
use shape_core::Kinds;
use shape_dict::Dictionary;
use slot_table::{Pass, SlotTable};
use std::alloc::Global;
use std::thread::Threads;

/// Merges shares into one dictionary (a share is what one worker has counted, with a row of counts
/// for each pattern). Each pattern has the sums of its rows in all shares, and its least game (the
/// least number of a game that had it). A pattern that was never there is left out. The shares must
/// together have each game below `games` once.
///
/// The table is asked for the pattern at each number (slot) once, in rising order. It is asked for
/// the pattern's least game too, until one is not that of the shares: those after it are not
/// checked. The table isn't changed. The calling thread asks and adds up. Then threads that `rt`
/// starts sort the dictionary: as many as there are shares, rounded up to a power of two, but at
/// most 64. The answer is the same for any number.
///
/// `pass` (the right to call the table) must be of the table. Each share must have counted these
/// `kinds` of pattern, and each of its games must be below `games`.
///
/// # Errors
///
/// In this order: `Twice` with the least game that is in the shares twice; `Missing` with the least
/// game that is in none; `Stranger` with the least number at which a share has a row and the table
/// another pattern than the row's, or none; `Marks` with the least number whose least game in the
/// table is not the least of its rows; `Overflow` if a sum passes 2^64 - 1. `Memory` if memory was
/// refused. After each the table's numbers and least games are as they were.
#[tactic(auto, using(gather_core::proofs::Calls::calls_self))]
pub fn gather<R: Threads + Sync, O: ProbeOrder>(
    rt: &R,
    alloc: Global,
    table: &SlotTable<O>,
    pass: &mut Pass<O>,
    kinds: Kinds,
    games: u64,
    shares: &[Share],
) -> Result<Dictionary, HarvestFault>
    requires pass { IsPassOf table.now pass.old }
    requires kinds { All (λ share. share.kinds ≡ kinds) shares.now }
    requires games { All (λ share. All (λ game. game < games) share.games) shares.now }
    ensures pass { IsPassOf table.now pass.new }
    ensures later { AsksOnly table.now.slots pass.old pass.new }
    ensures gathered { IfOk result (IsGathered kinds games shares.now) }
    ensures covers { OnOk result (Covers games (all_games shares.now)) }
    ensures stand { OnOk result (Stand table.now.slots pass.new.seen (all_rows shares.now)) }
    ensures asked { OnOk result (AskedAll table.now.slots (all_rows shares.now) pass.old pass.new) }
    ensures fault { IfErr result
        (IsGatherFault table.now.slots games shares.now pass.old pass.new) }
{
    check_games(alloc, games, shares)?;
    let slots = table.capacity().slots();
    let differs = visit_all(table, pass, shares)?;
    check_beyond(shares, slots)?;
    if let Some(differs) = differs {
        return Err(marks_fault(differs));
    }
    let entries = entries_of(alloc, slots, shares)?;
    add_up(rt, kinds, games, entries, shares)
}
