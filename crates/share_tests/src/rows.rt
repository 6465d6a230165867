//! A test of the rows of a share (one pattern's counts each).
ghost use Rattle.slot_table.specs.Passes.{IsPassOf};

use crate::games::add;
use probe_core::OddStep;
use shape_core::Kinds;
use share_samples::{ALONE, EMPTY, ONE_POINT, TAKEN, TWO_POINTS, table_of};
use slot_table::{Pass, SlotTable};
use std::alloc::Global;
use table_shares::Share;

/// Returns the sums over the rows of a share: of the words of their patterns, of how often these
/// were there, of how often they were played, and of their least games.
fn sums_of(share: &Share) -> (u64, u64, u64, u64) {
    let mut sums = (0, 0, 0, 0);
    for row in share.rows() {
        let (words, there, played, first) = sums;
        sums = (
            row.shape.word().bits().wrapping_add(words),
            row.there.wrapping_add(there),
            row.played.wrapping_add(played),
            row.first.get().unwrap_or(100).wrapping_add(first),
        );
    }
    sums
}

/// Whether the numbers of a share's rows (slots of the table) rise, and `Share::row_at` finds each
/// row by its number.
fn are_in_order(share: &Share) -> bool {
    let mut before = None;
    for row in share.rows() {
        let number = row.number;
        if before >= Some(number) {
            return false;
        }
        if share.row_at(number) != Some(row) {
            return false;
        }
        before = Some(number);
    }
    true
}

/// Whether a share has game 1 (`TWO_POINTS`) and then game 0 (`ONE_POINT`), with their moves and
/// rows: the pattern `EMPTY` was there twice, each of the three was played once, and the first game
/// of `ALONE` is 0.
fn has_both(share: &Share) -> bool {
    share.games() == [1, 0].as_slice()
        && share.moves() == 3
        && are_in_order(share)
        && sums_of(share) == (EMPTY + TAKEN + ALONE, 4, 3, 2)
}

/// Adds `TWO_POINTS` as game 1 and then `ONE_POINT` as game 0 to a share. Returns whether both were
/// added.
fn add_both(
    alloc: Global,
    share: &mut Share,
    table: &SlotTable<OddStep>,
    pass: &mut Pass<OddStep>,
) -> bool
    requires { IsPassOf table.now pass.old }
{
    let second = add(alloc, share, table, pass, 1, TWO_POINTS);
    second == Some(Ok(())) && add(alloc, share, table, pass, 0, ONE_POINT) == Some(Ok(()))
}

/// Whether both games can be added to a share over a table of 2^k slots, and it then has them and
/// their rows. None if k is above 22 or memory was refused.
fn counts_both(alloc: Global, k: u32) -> Option<bool> {
    let (table, mut pass) = table_of(alloc, k)?;
    let mut share = Share::begin(alloc, 0, Kinds::Squares);
    let added = add_both(alloc, &mut share, &table, &mut pass);
    Some(added && has_both(&share))
}

/// The numbers of the larger table lie in eight pages of a share's index.
#[test]
fn rows_come_by_rising_numbers_and_are_found(rt: HostRuntime) {
    assert!(rt; counts_both(rt.alloc(), 4) == Some(true));
    assert!(rt; counts_both(rt.alloc(), 7) == Some(true));
}
