//! Packs an entry into a record of 16 bytes, if its counts and first game are small enough for
//! that.
ghost use Rattle.std.specs.Prelude.{◌≡◌, map, IfSome, IfOk};
ghost use Rattle.range_core.specs.Inner.Records.{entry_of};

use shape_core::Shape;
use shape_dict::{Entry, FirstGame};
use std::alloc::{AllocError, Global};

/// A record has room for a first game below this.
const GAMES: u64 = 1 << 28;

/// A record has room for a number of plays below this.
const PLAYS: u64 = 1 << 12;

/// A record has room for how often a pattern was there, below this.
const THERES: u64 = 1 << 24;

/// An entry whose numbers are small: how often its pattern was there, how often it was played, and
/// its first game, which is known, in one number.
#[derive(Clone, Copy)]
pub(crate) struct Record {
    pub(crate) shape: Shape,
    /// From the highest bits down: how often it was there, how often it was played (12 bits), and
    /// its first game (28 bits).
    sums: u64,
}

/// Returns `entry` packed into a record, or None if its first game is unknown or a number is too
/// large.
#[inline(always)]
pub(crate) fn packed(entry: &Entry) -> Option<Record>
    ensures { IfSome result (λ one. entry_of one ≡ entry.now) }
{
    let game = entry.first.get()?;
    if entry.there >= THERES || entry.played >= PLAYS || game >= GAMES {
        return None;
    }
    Some(Record {
        shape: entry.shape,
        sums: (entry.there * PLAYS + entry.played) * GAMES + game,
    })
}

/// Returns the entry that was packed into a record.
#[inline(always)]
pub(crate) fn unpacked(one: Record) -> Entry
    ensures { result ≡ entry_of one }
{
    let counts = one.sums / GAMES;
    Entry {
        shape: one.shape,
        there: counts / PLAYS,
        played: counts % PLAYS,
        first: FirstGame::new(Some(one.sums % GAMES)),
    }
}

/// Returns the entries that were packed into records, in the order of these. It takes memory for
/// the entries.
///
/// # Errors
///
/// `AllocError` if memory was refused.
pub(crate) fn entries_of(alloc: Global, records: &[Record]) -> Result<Vec<Entry>, AllocError>
    ensures { IfOk result (λ entries. entries.items ≡ map entry_of records.now) }
{
    let mut entries = Vec::with_capacity(alloc, records.len())?;
    for one in records {
        entries.push(unpacked(*one))?;
    }
    Ok(entries)
}
