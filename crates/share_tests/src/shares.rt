//! A test of `Share::add` with another table than before.
use crate::games::{add, first};
use harvest_faults::HarvestFault;
use shape_core::Word;
use share_samples::{ALONE, EMPTY, ONE_POINT, TWO_POINTS, table_of};
use std::alloc::Global;
use table_shares::Share;

/// Adds `TWO_POINTS` as game 1 to a share, with a new table of one slot, and returns what
/// `Share::add` returned. None if memory for the table or the game's record was refused.
fn add_elsewhere(alloc: Global, share: &mut Share) -> Option<Result<(), HarvestFault>> {
    let (table, mut pass) = table_of(alloc, 0)?;
    add(alloc, share, &table, &mut pass, 1, TWO_POINTS)
}

/// Adds a game to a share with another table than its first game's, and returns what `Share::add`
/// returned. None if memory was refused before.
fn refused_elsewhere(alloc: Global) -> Option<Result<(), HarvestFault>> {
    let (table, mut pass) = table_of(alloc, 0)?;
    let mut share = first(alloc, &table, &mut pass, ONE_POINT)?;
    add_elsewhere(alloc, &mut share)
}

#[test]
fn a_share_takes_no_game_of_another_table(rt: HostRuntime) {
    let stranger = HarvestFault::Stranger {
        number: 0,
        of_share: Word::new(ALONE),
        of_table: Word::new(EMPTY),
    };
    assert!(rt; refused_elsewhere(rt.alloc()) == Some(Err(stranger)));
}
