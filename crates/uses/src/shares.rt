//! The examples of the pages of `gather_core` and `table_shares`.
use gather_core::{WordShare, gather_words};
use go_record::Record;
use harvest_faults::HarvestFault;
use job_core::Games;
use probe_core::{Capacity, OddStep};
use shape_core::Kinds;
use shape_dict::Dictionary;
use slot_table::SlotTable;
use std::alloc::Global;
use std::test::Fail;
use std::thread::Threads;
use table_shares::{Share, gather};

/// How many patterns the dictionary of one game has, counted by words by one worker, and whether
/// each of them has its number in a table.
fn gather_by_words<R: Threads + Sync>(
    rt: &R,
    alloc: Global,
    order: OddStep,
    record: &Record,
) -> Result<(usize, bool), HarvestFault> {
    // No game of an input has more than 2^28.
    if record.actions().len() > 1 << 28 {
        return Err(HarvestFault::Overflow);
    }
    let Ok((table, mut pass)) = SlotTable::new(alloc, order) else {
        return Err(HarvestFault::Memory);
    };
    let mut share = WordShare::begin(alloc, 0, Kinds::Squares, 8)?;
    share.add(0, record)?;
    let mut shares = Vec::new(alloc);
    shares.push(share)?;
    let words = gather_words(rt, alloc, Kinds::Squares, 1, &table, &mut pass, shares)?;
    Ok((words.dictionary.len(), words.numbered))
}

#[test]
fn gather_core(rt: HostRuntime) -> Result<(), Fail> {
    let capacity = Capacity::new(4).ok_or("an exponent up to 22")?;
    let mut games = Games::new(b"(;SZ[2:1];B[aa];W[ba])")?;
    let job = games.next_job(rt.alloc())?.ok_or("no game")?;
    let found = gather_by_words(&rt, rt.alloc(), OddStep { capacity }, job.record());
    assert!(rt; found == Ok((2, true)));
    Ok(())
}

/// The dictionary of one game, gathered from one share over a table of its own.
fn gather_one<R: Threads + Sync>(
    rt: &R,
    alloc: Global,
    order: OddStep,
    record: &Record,
) -> Result<Dictionary, HarvestFault> {
    let Ok((table, mut pass)) = SlotTable::new(alloc, order) else {
        return Err(HarvestFault::Memory);
    };
    let mut share = Share::begin(alloc, 0, Kinds::Squares);
    share.add(&table, &mut pass, 0, record)?;
    gather(rt, alloc, &table, &mut pass, Kinds::Squares, 1, &[share])
}

#[test]
fn table_shares(rt: HostRuntime) -> Result<(), Fail> {
    let capacity = Capacity::new(4).ok_or("an exponent up to 22")?;
    let mut games = Games::new(b"(;SZ[2:1];B[aa];W[ba])")?;
    let job = games.next_job(rt.alloc())?.ok_or("no game")?;
    let dictionary = gather_one(&rt, rt.alloc(), OddStep { capacity }, job.record())?;
    assert!(rt; dictionary.entries().len() == 2);
    Ok(())
}
