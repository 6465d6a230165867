//! Adds games to shares (what one worker has counted). The functions are those of `share_samples`
//! with shorter contracts: the tests need only that the pass (the right to call the table) is still
//! the table's. With fewer facts a proof has less to look through.
ghost use Rattle.std.specs.Prelude.{◌<◌};
ghost use Rattle.sgf_core.specs.Limit.{most_bytes};
ghost use Rattle.slot_table.specs.Passes.{IsPassOf};

use harvest_faults::HarvestFault;
use probe_core::OddStep;
use share_samples::{add_written, first_share};
use slot_table::{Pass, SlotTable};
use std::alloc::Global;
use table_shares::Share;

/// Adds the first game in `bytes` to a share, with the number `game`, and returns what `Share::add`
/// returned. `pass` is the right to call `table`. None if there is no such game, or memory for its
/// record was refused.
pub(crate) fn add(
    alloc: Global,
    share: &mut Share,
    table: &SlotTable<OddStep>,
    pass: &mut Pass<OddStep>,
    game: u64,
    bytes: &[u8],
) -> Option<Result<(), HarvestFault>>
    requires pass { IsPassOf table.now pass.old }
    requires game { game < most_bytes }
    ensures { IsPassOf table.now pass.new }
{
    add_written(alloc, share, table, pass, game, bytes)
}

/// Returns a share (what one worker has counted) of the first game in `bytes` alone, which gets the
/// number 0. Its patterns get slots in `table`, which is called by `pass` (the right to call it).
/// None if there is no such game, or memory was refused, or the game was not added.
pub(crate) fn first(
    alloc: Global,
    table: &SlotTable<OddStep>,
    pass: &mut Pass<OddStep>,
    bytes: &[u8],
) -> Option<Share>
    requires { IsPassOf table.now pass.old }
    ensures { IsPassOf table.now pass.new }
{
    first_share(alloc, table, pass, bytes)
}
