//! Shares (the counts of one worker each) joined to a dictionary, where games are there twice or
//! not at all.
ghost use Rattle.std.specs.Prelude.{◌<◌, ◌≤◌};
ghost use Rattle.sgf_core.specs.Limit.{most_bytes};
ghost use Rattle.slot_table.specs.Passes.{IsPassOf};

use go_record::Record;
use harvest_faults::HarvestFault;
use probe_core::OddStep;
use shape_core::Kinds;
use share_samples::{ONE_POINT, record_of, share_of, table_of};
use slot_table::{Pass, SlotTable};
use std::alloc::Global;
use std::test::Fail;
use std::thread::Threads;
use table_shares::gather;

/// Joins two shares to the dictionary of `games` games: one has `record` as game 0, and one has it
/// as game `other`. Returns how many games and how many patterns the dictionary has.
fn gather_two<R: Threads + Sync>(
    rt: &R,
    alloc: Global,
    table: &SlotTable<OddStep>,
    pass: &mut Pass<OddStep>,
    record: &Record,
    other: u64,
    games: u64,
) -> Result<(u64, usize), HarvestFault>
    requires pass { IsPassOf table.now pass.old }
    requires games { games ≤ most_bytes }
    requires other { other < games }
    ensures { IsPassOf table.now pass.new }
{
    let one = share_of(alloc, table, pass, 0, record)?;
    let other = share_of(alloc, table, pass, other, record)?;
    match gather(rt, alloc, table, pass, Kinds::Squares, games, &[one, other]) {
        Ok(dictionary) => Ok((dictionary.games(), dictionary.entries().len())),
        Err(fault) => Err(fault),
    }
}

/// Joins two shares of one game each, three times: if both have game 0, of three games; if they
/// have the games 0 and 2, of three; and if they have the games 0 and 1, of two. Returns how many
/// games and patterns each dictionary has, or the fault. None if memory for the table was refused.
fn gathered_in_pairs<R: Threads + Sync>(
    rt: &R,
    alloc: Global,
    record: &Record,
) -> Option<[Result<(u64, usize), HarvestFault>; 3]> {
    let (table, mut pass) = table_of(alloc, 0)?;
    let twice = gather_two(rt, alloc, &table, &mut pass, record, 0, 3);
    let missing = gather_two(rt, alloc, &table, &mut pass, record, 2, 3);
    let both = gather_two(rt, alloc, &table, &mut pass, record, 1, 2);
    Some([twice, missing, both])
}

#[test]
fn each_game_is_in_one_share(rt: HostRuntime) -> Result<(), Fail> {
    let record = record_of(rt.alloc(), ONE_POINT).ok_or("no record")?;
    let twice = Err(HarvestFault::Twice(0));
    let missing = Err(HarvestFault::Missing(1));
    let found = gathered_in_pairs(&rt, rt.alloc(), &record);
    assert!(rt; found == Some([twice, missing, Ok((2, 1))]));
    Ok(())
}
