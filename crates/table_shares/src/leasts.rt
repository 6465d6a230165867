//! Finds the row of the least number (slot of the table) among all shares' rows that meet a
//! condition. A share is what one worker has counted, and a row of it the counts of one pattern.
ghost use Rattle.std.specs.Prelude.{◌++◌, ◌∷◌, [], List};
ghost use Rattle.std.specs.Bool.{OnTrue, OnFalse};
ghost use Rattle.gather_core.specs.declared.rows.Row.{Row};
ghost use Rattle.gather_core.specs.Gathering.{all_rows};
ghost use Rattle.table_shares.specs.Inner.Leasts.{IsSought, IsLeastSought};

use crate::shares::Share;
use gather_core::Row;

/// Which rows of shares are looked for (a row is one pattern's counts, under its number in the
/// table).
#[derive(Clone, Copy)]
pub(crate) enum Sought {
    /// The rows of the pattern whose word has these bits.
    Pattern(u64),
    /// The rows of this number and of greater ones.
    From(usize),
}

/// Whether `sought` asks for a row that has this `number` and a pattern whose word has these
/// `bits`.
fn is_sought(sought: Sought, number: usize, bits: u64) -> bool
    ensures yes { OnTrue result (IsSought sought number bits) }
    ensures no { OnFalse result (IsSought sought number bits → ⊥) }
{
    match sought {
        Sought::Pattern(wanted) => bits == wanted,
        Sought::From(first) => number >= first,
    }
}

/// Returns `row` if `sought` asks for it, and `least` is None or has a greater number than `row`.
/// Else it returns `least`, which was found before.
fn lesser(least: Option<Row>, row: Row, sought: Sought) -> Option<Row>
    ensures { (rows : List Row) → IsLeastSought sought rows least
        → IsLeastSought sought (rows ++ row ∷ []) result }
{
    if !is_sought(sought, row.number, row.shape.word().bits()) {
        return least;
    }
    match least {
        None => Some(row),
        Some(so_far) => {
            if row.number < so_far.number {
                Some(row)
            } else {
                Some(so_far)
            }
        }
    }
}

/// Returns the row of the least number among `least`, the one found so far, and the rows of `more`
/// that `sought` asks for. If several have that number, it is the first.
fn least_in(least: Option<Row>, more: &[Row], sought: Sought) -> Option<Row>
    ensures { (rows : List Row) → IsLeastSought sought rows least
        → IsLeastSought sought (rows ++ more.now) result }
{
    let mut found = least;
    for row in more {
        found = lesser(found, *row, sought);
    }
    found
}

/// Returns, of the rows of all shares that `sought` asks for, the one of the least number, and the
/// first one if several have it. None if it asks for no row that they have.
pub(crate) fn least_of(shares: &[Share], sought: Sought) -> Option<Row>
    ensures { IsLeastSought sought (all_rows shares.now) result }
{
    let mut found = None;
    for share in shares {
        found = least_in(found, share.made_rows(), sought);
    }
    found
}
