//! Memory that is refused, whichever request it is: the fault is out of memory, and the same call
//! can be made again.
ghost use Rattle.std.specs.Prelude.{◌≡◌, ◌++◌, ◌∷◌, [], ◌<◌};
ghost use Rattle.std.specs.Bool.{OnTrue};
ghost use Rattle.shape_core.specs.declared.words.Kinds.TheVariants as kinds;
ghost use Rattle.slot_table.specs.Passes.{IsPassOf};
ghost use Rattle.sgf_core.specs.Limit.{most_bytes};

use go_record::Record;
use harvest_faults::HarvestFault;
use probe_core::OddStep;
use shape_core::Kinds;
use shape_dict::{Dictionary, Entry};
use share_samples::{entry_of, record_of, table_of};
use slot_table::{Pass, SlotTable};
use std::alloc::Global;
use std::thread::Threads;
use table_shares::{Share, gather};

/// Two points: Black plays at one of them, and White at the other.
const IN_TURN: &[u8] = b"(;SZ[2:1];B[aa];W[ba])";

/// Two points: Black plays at both.
const BLACK_ALONE: &[u8] = b"(;SZ[2:1];B[aa];B[ba])";

/// Adds a game to a share, once more if memory is refused. Returns whether the share has the game.
fn add_again(
    table: &SlotTable<OddStep>,
    pass: &mut Pass<OddStep>,
    share: &mut Share,
    game: u64,
    record: &Record,
) -> bool
    requires pass { IsPassOf table.now pass.old }
    requires game { game < most_bytes }
    ensures pass { IsPassOf table.now pass.new }
    ensures kinds { OnTrue result (share.new.kinds ≡ share.old.kinds) }
    ensures games { OnTrue result (share.new.games ≡ share.old.games ++ game ∷ []) }
{
    match share.add(table, pass, game, record) {
        Ok(()) => true,
        Err(HarvestFault::Memory) => share.add(table, pass, game, record).is_ok(),
        Err(_) => false,
    }
}

/// Adds two games to a share, which has none: `in_turn` as game 1, and then `alone` as game 0.
/// Returns whether the share has both.
fn add_both(
    table: &SlotTable<OddStep>,
    pass: &mut Pass<OddStep>,
    share: &mut Share,
    in_turn: &Record,
    alone: &Record,
) -> bool
    requires pass { IsPassOf table.now pass.old }
    requires none { share.old.games ≡ [] }
    ensures pass { IsPassOf table.now pass.new }
    ensures kinds { OnTrue result (share.new.kinds ≡ share.old.kinds) }
    ensures games { OnTrue result (share.new.games ≡ 1 ∷ 0 ∷ []) }
{
    add_again(table, pass, share, 1, in_turn) && add_again(table, pass, share, 0, alone)
}

/// Whether the entries are exactly these, none of which is None.
fn are(entries: &[Entry], wanted: &[Option<Entry>]) -> bool {
    for (entry, wanted) in entries.iter().zip(wanted) {
        if Some(*entry) != *wanted {
            return false;
        }
    }
    entries.len() == wanted.len()
}

/// Whether a dictionary has the counts of both games, as squares and as diamonds: an empty point
/// was next to an empty one twice in each game, once next to the other colour, and once next to its
/// own.
fn has_both(dictionary: &Dictionary) -> bool {
    let wanted = [
        entry_of(0x3fff3fcffffff, 4, 2, 0),
        entry_of(0x3fff7fcffffff, 1, 1, 0),
        entry_of(0x3fffbfcffffff, 1, 1, 1),
        entry_of(0x7ffcffcffffff, 4, 2, 0),
        entry_of(0x7ffdffcffffff, 1, 1, 0),
        entry_of(0x7ffeffcffffff, 1, 1, 1),
    ];
    (dictionary.games(), dictionary.moves()) == (2, 4) && are(dictionary.entries(), &wanted)
}

/// Whether a dictionary has the counts of both games; the fault, where there is one in its place.
fn is_of_both(gathered: Result<Dictionary, HarvestFault>) -> Result<bool, HarvestFault> {
    match gathered {
        Ok(dictionary) => Ok(has_both(&dictionary)),
        Err(fault) => Err(fault),
    }
}

/// Whether the dictionary of a share of both games has the counts of both; it is made once more if
/// memory is refused.
fn gathers_both<R: Threads + Sync>(
    rt: &R,
    alloc: Global,
    table: &SlotTable<OddStep>,
    pass: &mut Pass<OddStep>,
    share: Share,
) -> Result<bool, HarvestFault>
    requires pass { IsPassOf table.now pass.old }
    requires kinds { share.kinds ≡ kinds.Both }
    requires games { share.games ≡ 1 ∷ 0 ∷ [] }
{
    let shares = [share];
    match is_of_both(gather(rt, alloc, table, pass, Kinds::Both, 2, &shares)) {
        Err(HarvestFault::Memory) => {
            is_of_both(gather(rt, alloc, table, pass, Kinds::Both, 2, &shares))
        }
        told => told,
    }
}

/// Whether both games, counted into a share over this table, are in its dictionary. `Memory` if
/// memory for the dictionary was refused twice.
fn counts_both<R: Threads + Sync>(
    rt: &R,
    alloc: Global,
    table: &SlotTable<OddStep>,
    pass: &mut Pass<OddStep>,
    in_turn: &Record,
    alone: &Record,
) -> Result<bool, HarvestFault>
    requires { IsPassOf table.now pass.old }
{
    let mut share = Share::begin(alloc, 0, Kinds::Both);
    if add_both(table, pass, &mut share, in_turn, alone) {
        gathers_both(rt, alloc, table, pass, share)
    } else {
        Ok(false)
    }
}

/// Whether both games, counted over a new table, are in the dictionary. None if memory for the
/// table was refused.
fn counts_over_new<R: Threads + Sync>(
    rt: &R,
    alloc: Global,
    in_turn: &Record,
    alone: &Record,
) -> Option<Result<bool, HarvestFault>> {
    let (table, mut pass) = table_of(alloc, 4)?;
    Some(counts_both(rt, alloc, &table, &mut pass, in_turn, alone))
}

#[test]
fn memory_is_found_or_named(rt: HostRuntime) {
    let alloc = rt.alloc();
    // Without memory for a record there is nothing to count.
    if let (Some(in_turn), Some(alone)) = (
        record_of(alloc, IN_TURN),
        record_of(alloc, BLACK_ALONE),
    ) {
        let found = counts_over_new(&rt, alloc, &in_turn, &alone);
        assert!(rt; found.is_none() || found == Some(Ok(true)));
    }
}
