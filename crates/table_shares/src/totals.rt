//! Adds up each pattern's rows in all shares, and lists the totals of all patterns. A share is what
//! one worker has counted, and a row of it the counts of one pattern.
ghost use Rattle.std.specs.Prelude.{◌≡◌, ◌^◌, ◌<◌, ◌≤◌, ◌++◌, ℕ, List, None, Some, IfSome, IfNone};
ghost use Rattle.std.specs.Prelude.{IfOk, IfErr};
ghost use Rattle.range_core.specs.Entries.{IsShape};
ghost use Rattle.harvest_faults.specs.declared.faults.HarvestFault.TheVariants as fault;
ghost use Rattle.gather_core.specs.declared.rows.Row.{Row};
ghost use Rattle.table_shares.specs.Rows.{row_of, AreBelow, AreOfNumbers};
ghost use Rattle.gather_core.specs.WordShares.{unnumbered};
ghost use Rattle.gather_core.specs.Gathering.{all_rows};
ghost use Rattle.table_shares.specs.Inner.Gathering.{AreOneEach};
ghost use Rattle.table_shares.specs.Inner.Totals.{with_row, IsUnlike, IsTotalAt, IsSumFault};
ghost use Rattle.table_shares.specs.Inner.Totals.{IsListFault, AreEntriesOf};

use crate::numbers::earlier;
use crate::shares::Share;
use gather_core::Row;
use harvest_faults::HarvestFault;
use shape_dict::{Entry, FirstGame};
use std::alloc::Global;

/// Makes a dictionary's entry of a row (one pattern's counts in a share). The call of `word` is for
/// the proof: it shows that the entry's word is canonical, as the type `Shape` says.
fn entry(row: Row) -> Entry
    ensures value { result ≡ with_row None row }
    ensures shape { IsShape result }
{
    let _ = row.shape.word();
    Entry {
        shape: row.shape,
        there: row.there,
        played: row.played,
        first: row.first,
    }
}

/// Adds the counts of `more` to those of `total`, an entry of the same pattern, and returns the sum
/// with the lesser of both least games. None if the patterns differ, or a sum would pass 2^64 - 1.
pub(crate) fn with(total: Entry, more: Entry) -> Option<Entry>
    ensures some { IfSome result (λ both. (both ≡ with_row (Some total) (unnumbered more))
        × (total.shape ≡ more.shape)) }
    ensures none { IfNone result (IsUnlike total (unnumbered more)) }
{
    if total.shape != more.shape {
        return None;
    }
    Some(Entry {
        shape: total.shape,
        there: total.there.checked_add(more.there)?,
        played: total.played.checked_add(more.played)?,
        first: FirstGame::new(earlier(total.first.get(), more.first.get())),
    })
}

/// Adds one share's row to `total`, the sum of the rows that earlier shares have under the same
/// number (None if they have none). Returns the new total.
///
/// # Errors
///
/// `Overflow` if the row is of another pattern, or a sum passes 2^64 - 1.
fn add(total: Option<Entry>, row: Row) -> Result<Entry, HarvestFault>
    ensures ok { IfOk result (λ both. (rows more : List Row) → (number : ℕ) → AreOfNumbers more
        → row_of more number ≡ Some row → IsTotalAt rows number total
        → IsTotalAt (rows ++ more) number (Some both)) }
    ensures shape { IfOk result (λ both. IfSome total IsShape → IsShape both) }
    ensures fault { IfErr result (λ found. (rows more : List Row) → (number : ℕ)
        → AreOfNumbers more → row_of more number ≡ Some row → IsTotalAt rows number total
        → IsSumFault (rows ++ more) number found) }
{
    let Some(total) = total else {
        return Ok(entry(row));
    };
    match with(total, entry(row)) {
        Some(both) => Ok(both),
        None => Err(HarvestFault::Overflow),
    }
}

/// Adds up what all shares have counted of the pattern in the table's slot `number`. Returns None
/// if no share has a row of that number. It takes no memory.
///
/// # Errors
///
/// `Overflow` if shares have different patterns at this number, or a sum passes 2^64 - 1.
fn total_at(shares: &[Share], number: usize) -> Result<Option<Entry>, HarvestFault>
    ensures total { IfOk result (IsTotalAt (all_rows shares.now) number) }
    ensures shape { IfOk result (λ total. IfSome total IsShape) }
    ensures fault { IfErr result (IsSumFault (all_rows shares.now) number) }
{
    let mut total = None;
    for share in shares {
        if let Some(row) = share.row_at(number) {
            total = Some(add(total, row)?);
        }
    }
    Ok(total)
}

/// Adds up all shares' rows of each number below `slots`, and returns an entry for each number
/// whose pattern was there at least once. All rows must have numbers below `slots`. The rows of one
/// number must be of one pattern, and no two numbers' rows may be of the same pattern.
///
/// # Errors
///
/// `Overflow` if a sum passes 2^64 - 1; `Memory` if memory was refused.
pub(crate) fn entries_of(
    alloc: Global,
    slots: usize,
    shares: &[Share],
) -> Result<Vec<Entry>, HarvestFault>
    requires below { AreBelow slots (all_rows shares.now) }
    requires each { AreOneEach (all_rows shares.now) }
    ensures entries { IfOk result (λ entries. AreEntriesOf (all_rows shares.now) entries.items) }
    ensures fault { IfErr result (IsListFault (all_rows shares.now)) }
{
    let mut entries = Vec::new(alloc);
    for number in 0..slots {
        let Some(total) = total_at(shares, number)? else {
            continue;
        };
        if total.there > 0 {
            entries.push(total)?;
        }
    }
    Ok(entries)
}
