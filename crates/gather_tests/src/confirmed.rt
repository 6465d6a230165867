//! Why a table has no slot for a pattern, by all shares (the counts of all workers).
use harvest_faults::HarvestFault;
use shape_core::Word;
use share_samples::{ALONE, EMPTY, ONE_POINT, first_share, table_of};
use std::alloc::Global;
use std::test::Fail;
use table_shares::confirm_full;

/// Makes a table of one slot, which gets the pattern of `ONE_POINT`. Returns what `confirm_full`
/// (which says why a table has no slot for a pattern) returns for the pattern `other`, which the
/// table does not have, and for `own`, which it has. None if memory was refused.
fn confirmed_of_one(alloc: Global, other: Word, own: Word) -> Option<(HarvestFault, HarvestFault)> {
    let (table, mut pass) = table_of(alloc, 0)?;
    let shares = [first_share(alloc, &table, &mut pass, ONE_POINT)?];
    let of_other = confirm_full(&table, &mut pass, &shares, 0, other);
    Some((of_other, confirm_full(&table, &mut pass, &shares, 0, own)))
}

#[test]
fn a_table_is_full_of_patterns_but_not_of_one_it_has(rt: HostRuntime) -> Result<(), Fail> {
    let empty = Word::new(EMPTY).ok_or("no word")?;
    let alone = Word::new(ALONE).ok_or("no word")?;
    let full = HarvestFault::Full {
        game: 0,
        word: empty,
    };
    let same = HarvestFault::Stranger {
        number: 0,
        of_share: Some(alone),
        of_table: Some(alone),
    };
    assert!(rt; confirmed_of_one(rt.alloc(), empty, alone) == Some((full, same)));
    Ok(())
}
