//! Sums up all shares' rows under one number (slot of the table): their least game, and a pattern
//! that differs, if any. A share is what one worker has counted, and a row of it the counts of one
//! pattern.
ghost use Rattle.std.specs.Prelude.{◌≡◌, ◌++◌, ℕ, List, Some};
ghost use Rattle.gather_core.specs.declared.rows.Row.{Row};
ghost use Rattle.gather_core.specs.Rows.{earlier};
ghost use Rattle.table_shares.specs.Rows.{row_of, AreOfNumbers};
ghost use Rattle.gather_core.specs.Gathering.{all_rows};
ghost use Rattle.table_shares.specs.Inner.Checking.{unlike_of};
ghost use Rattle.table_shares.specs.Inner.Numbers.{AreSums};

use crate::shares::Share;
use gather_core::Row;
use shape_core::{Shape, Word};

/// What all shares have under one number (slot of the table): `first` is the least game of their
/// rows, and `stranger` the pattern of the first row that is not of the pattern asked for. None
/// stands for no game, and for no such row.
#[derive(Clone, Copy)]
pub(crate) struct NumberSums {
    pub first: Option<u64>,
    pub stranger: Option<Word>,
}

/// Returns the word of `shape` if its bits are not `found`, else None. If `found` is None, it
/// returns the word.
fn unlike(shape: Shape, found: Option<u64>) -> Option<Word>
    ensures { result ≡ unlike_of shape found }
{
    let word = shape.word();
    if found == Some(word.bits()) {
        None
    } else {
        Some(word)
    }
}

/// Returns the lesser of two games; None stands for no game.
pub(crate) fn earlier(one: Option<u64>, other: Option<u64>) -> Option<u64>
    ensures { result ≡ earlier one other }
{
    match (one, other) {
        (None, other) => other,
        (Some(one), None) => Some(one),
        (Some(one), Some(other)) => Some(one.min(other)),
    }
}

/// Returns `sums` with one more row of the same number added. `found` are the bits of the pattern
/// that the row should have; None if the number has no pattern. If the row is of another pattern,
/// that is the `stranger`, unless an earlier row gave one.
fn add(sums: NumberSums, row: Row, found: Option<u64>) -> NumberSums
    ensures { (rows more : List Row) → (number : ℕ) → AreOfNumbers more
        → row_of more number ≡ Some row → AreSums rows number found sums
        → AreSums (rows ++ more) number found result }
{
    NumberSums {
        first: earlier(sums.first, row.first.get()),
        stranger: sums.stranger.or(unlike(row.shape, found)),
    }
}

/// Sums up the rows that the shares have under `number`, a slot of the table: returns their least
/// game, and the first pattern among them that is not the slot's. `found` has the bits of the
/// slot's word, or is None if the slot has no pattern: then that is the first row's pattern. It
/// takes no memory.
pub(crate) fn sums_at(shares: &[Share], number: usize, found: Option<u64>) -> NumberSums
    ensures { AreSums (all_rows shares.now) number found result }
{
    let mut sums = NumberSums {
        first: None,
        stranger: None,
    };
    for share in shares {
        if let Some(row) = share.row_at(number) {
            sums = add(sums, row, found);
        }
    }
    sums
}
