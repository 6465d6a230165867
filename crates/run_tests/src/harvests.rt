//! Small collections, counted by workers, each of which counts either by the words of the patterns
//! or over a table of numbers.
ghost use Rattle.slot_table.specs.Passes.{IsPassOf};

use harvest_core::{FreeGate, Gate, harvest};
use harvest_faults::HarvestFault;
use probe_core::{Capacity, OddStep};
use shape_core::{Kinds, Word};
use shape_dict::{PieceDictionary, Text};
use slot_table::{Pass, SlotTable};
use std::alloc::{AllocError, Global};
use std::sync::Wait;
use std::test::Fail;
use std::thread::Threads;
use table_harvest::harvest_on;
use tally_core::{Counted, Settings};

/// One move on a board of one point: one pattern, `ALONE`.
const ONE_POINT: &[u8] = b"(;SZ[1];B[aa])";

/// Two moves on a board of two points: two patterns.
const TWO_POINTS: &[u8] = b"(;SZ[2:1];B[aa];W[ba])";

/// The word of the one square that `ONE_POINT` has: an empty point with nothing of the board round
/// it.
const ALONE: u64 = 0x3fffffcffffff;

/// The numbers of workers to try.
pub(crate) const CREWS: [u8; 4] = [1, 2, 7, 64];

/// How workers count the squares of a collection that has four of them at most.
#[derive(Clone, Copy)]
pub(crate) enum Way {
    /// By words, and the patterns get their numbers at the end: `harvest`.
    Words,
    /// Over a new table of four numbers: `harvest_on`.
    Table,
}

/// Returns the text of a collection of 2 * `pairs` games: `ONE_POINT` and `TWO_POINTS` in turn.
/// `AllocError` if memory was refused.
pub(crate) fn collection(alloc: Global, pairs: u64) -> Result<Vec<u8>, AllocError> {
    let mut bytes = Vec::new(alloc);
    for _ in 0..pairs {
        bytes.extend_from_slice(ONE_POINT)?;
        bytes.extend_from_slice(TWO_POINTS)?;
    }
    Ok(bytes)
}

/// Counts the squares of a collection by `harvest_on` over a new table of four numbers, and returns
/// the dictionary and the report.
fn count_over_new<R: Threads + Wait + Sync, G: Gate>(
    rt: &R,
    alloc: Global,
    settings: Settings,
    bytes: &[u8],
    gate: &G,
) -> Result<Counted, HarvestFault> {
    let Some(capacity) = Capacity::new(2) else {
        return Err(HarvestFault::BadSettings);
    };
    let (table, mut pass) = SlotTable::new(alloc, OddStep { capacity })?;
    harvest_on(rt, alloc, settings, &table, &mut pass, bytes, gate)
}

/// Counts the squares of a collection, of which there are four at most, in one of two ways by this
/// number of workers. Each thread calls `gate` when it begins a game. Returns how many games and
/// how many patterns there are.
pub(crate) fn counted_by<R: Threads + Wait + Sync, G: Gate>(
    rt: &R,
    alloc: Global,
    way: Way,
    workers: u8,
    bytes: &[u8],
    gate: &G,
) -> Result<(u64, usize), HarvestFault> {
    let settings = Settings::new(workers, 2)?;
    let counted = match way {
        Way::Words => harvest(rt, alloc, settings, bytes, gate),
        Way::Table => count_over_new(rt, alloc, settings, bytes, gate),
    };
    match counted {
        Ok(counted) => Ok((counted.report.games, counted.dictionary.len())),
        Err(fault) => Err(fault),
    }
}

/// The dictionary, in text format 3 with squares and diamonds, of 150 games of one point and 150 of
/// two points in turn: `ONE_POINT` and `TWO_POINTS`.
const OF_300: &[u8] =
    b"shapes 3 games 300 moves 450 squares 3 diamonds 3\n3fff3fcffffff 300 150 1\n3fffbfcffffff 150 150 1\n3fffffcffffff 150 150 0\n7ffcffcffffff 300 150 1\n7ffeffcffffff 150 150 1\n7fffffcffffff 150 150 0\n";

/// Whether the text of a dictionary, in format 3, is `wanted`. False also if memory was refused.
fn is_text(alloc: Global, counted: PieceDictionary, wanted: &[u8]) -> bool {
    let Ok(dictionary) = counted.into_dictionary(alloc) else {
        return false;
    };
    let mut text = Vec::new(alloc);
    let written = dictionary.write(Text::Three, &mut text);
    written.is_ok() && text.as_slice() == wanted
}

/// Whether this number of workers counts the squares and diamonds `OF_300` in the collection
/// `bytes`.
fn is_of_300<R: Threads + Wait + Sync>(rt: &R, alloc: Global, workers: u8, bytes: &[u8]) -> bool {
    let Ok(settings) = Settings::new(workers, 3) else {
        return false;
    };
    match harvest(rt, alloc, settings.with(Kinds::Both), bytes, &FreeGate) {
        Ok(counted) => is_text(alloc, counted.dictionary, OF_300),
        Err(_) => false,
    }
}

#[test]
fn any_number_of_workers_counts_the_same(rt: HostRuntime) -> Result<(), Fail> {
    let bytes = collection(rt.alloc(), 150)?;
    for workers in CREWS {
        assert!(rt;
            is_of_300(&rt, rt.alloc(), workers, &bytes),
            "{workers} workers"
        );
    }
    Ok(())
}

/// Counts a collection by two workers over a table, which may have numbers already. Returns how
/// many patterns it has.
fn patterns_on<R: Threads + Wait + Sync>(
    rt: &R,
    alloc: Global,
    table: &SlotTable<OddStep>,
    pass: &mut Pass<OddStep>,
    bytes: &[u8],
) -> Result<usize, HarvestFault>
    requires { IsPassOf table.now pass.old }
    ensures { IsPassOf table.now pass.new }
{
    let settings = Settings::new(2, 0)?;
    match harvest_on(rt, alloc, settings, table, pass, bytes, &FreeGate) {
        Ok(counted) => Ok(counted.dictionary.len()),
        Err(fault) => Err(fault),
    }
}

/// What a count over a table of one number returns of `ONE_POINT`; then, over the same table, of
/// `TWO_POINTS`; and then of a game of one point after a game without a pattern. None if memory for
/// the table was refused.
fn on_one_number<R: Threads + Wait + Sync>(
    rt: &R,
    alloc: Global,
) -> Option<[Result<usize, HarvestFault>; 3]> {
    let capacity = Capacity::new(0)?;
    let (table, mut pass) = SlotTable::new(alloc, OddStep { capacity }).ok()?;
    let first = patterns_on(rt, alloc, &table, &mut pass, ONE_POINT);
    let other = patterns_on(rt, alloc, &table, &mut pass, TWO_POINTS);
    let later = b"(;SZ[1]AB[aa])(;SZ[1];B[aa])";
    let marked = patterns_on(rt, alloc, &table, &mut pass, later);
    Some([first, other, marked])
}

#[test]
fn a_table_of_another_input_disagrees(rt: HostRuntime) {
    let stranger = HarvestFault::Stranger {
        number: 0,
        of_share: None,
        of_table: Word::new(ALONE),
    };
    let marks = HarvestFault::Marks {
        number: 0,
        of_shares: Some(1),
        of_table: Some(0),
    };
    let found = on_one_number(&rt, rt.alloc());
    assert!(rt; found == Some([Ok(1), Err(stranger), Err(marks)]));
}

/// With memory refused at any request, a count over a table is made or the fault for out of memory
/// is returned, and all threads end.
#[test]
fn memory_is_found_or_named(rt: HostRuntime) {
    let bytes = b"(;SZ[1];B[aa])(;SZ[2:1];B[aa];W[ba])";
    let found = counted_by(&rt, rt.alloc(), Way::Table, 2, bytes, &FreeGate);
    assert!(rt; found == Ok((2, 3)) || found == Err(HarvestFault::Memory));
}
