//! Adds up the entries of each pattern: a row (its summed entry) for each pattern, in a map that is
//! small enough for a near cache.
ghost use Rattle.std.specs.Prelude.{◌≡◌, ◌+◌, ◌^◌, ◌≤◌, IfSome, IfNone};
ghost use Rattle.range_core.specs.Totals.{earlier};
ghost use Rattle.range_core.specs.Inner.Sums.{summed_row};

use crate::place_lists::PLACE_LISTS;
use crate::places::{MULTIPLIER, find, free_rows, is_free};
use crate::record_lists::RecordList;
use shape_dict::{Entry, FirstGame};
use std::alloc::{AllocError, Global};
use std::marker::Model;

/// The factor by which words are multiplied here. Of the product with `MULTIPLIER` it drops the
/// highest 9 bits, which say the range of places: the patterns of one range differ in the others.
const FACTOR: u64 = MULTIPLIER.wrapping_mul(PLACE_LISTS as u64);

/// Returns the lesser of two first games, or the known one if only one is known.
#[inline(always)]
fn least(one: FirstGame, other: FirstGame) -> FirstGame
    ensures { result ≡ earlier one other }
{
    match (one.get(), other.get()) {
        (None, _) => other,
        (Some(_), None) => one,
        (Some(game), Some(next)) => { if game <= next { one } else { other } }
    }
}

/// Returns the sum of two entries of one pattern, with the lesser first game. None if a sum passes
/// 2^64 - 1.
#[inline(always)]
pub(crate) fn joined(one: &Entry, other: &Entry) -> Option<Entry>
    ensures some { IfSome result (λ both. both ≡ record other.now {
      there = one.now.there + other.now.there;
      played = one.now.played + other.now.played;
      first = earlier one.now.first other.now.first;
    }) }
    ensures none { IfNone result (2 ^ 64
        ≤ one.now.there + one.now.played + other.now.there + other.now.played) }
{
    Some(Entry {
        shape: other.shape,
        there: one.there.checked_add(other.there)?,
        played: one.played.checked_add(other.played)?,
        first: least(one.first, other.first),
    })
}

/// Returns `row` with `entry` added to it. The row must be that of the entry's pattern, or a free
/// one. None if a sum passes 2^64 - 1.
#[inline(always)]
fn summed(row: &Entry, entry: &Entry) -> Option<Entry>
    ensures { IfSome result (λ more. more ≡ summed_row row.now entry.now) }
{
    if is_free(row) {
        return Some(*entry);
    }
    joined(row, entry)
}

/// Returns a number of places with which `Sums::add` finds a place for each pattern of `entries`
/// entries, if a pattern has two or more. Fewer places than that stay in a near cache.
pub(crate) fn few_places(entries: usize) -> usize {
    entries / 8 * 5
}

/// Returns a number of places with which `Sums::add` finds a place for each of `entries` entries.
pub(crate) fn places_for(entries: usize) -> usize {
    entries.saturating_add(entries / 3).saturating_add(8)
}

/// A map of patterns, each once, with the sums of its entries and its least first game. Contracts
/// see the summed entries, in the order of their places.
#[derive(Drop)]
pub struct Sums {
    /// The row at each place: a pattern's summed entry, or a free row.
    rows: Vec<Entry>,
    /// How many rows are taken: one of their counts is above 0.
    taken: usize,
    /// How many rows may be taken, seven eighths of all: with more, finding a row takes long.
    most: usize,
}

impl Model for Sums {
    ghost use Rattle.std.specs.Prelude.{List};
    ghost use Rattle.shape_dict.specs.declared.entries.Entry.{Entry};
    ghost use Rattle.range_core.specs.Rows.{taken_of, AreRows};
    ghost use Rattle.range_core.specs.Inner.Sums.{sums_factor};

    ghost Value = { List Entry };

    ghost view = { λ s. taken_of s.rows.items };

    ghost invariant = { λ s. AreRows sums_factor s.rows.items };
}

impl Sums {
    ghost use Rattle.std.specs.Prelude.{◌≡◌, ◌++◌, ◌+◌, ◌<◌, ℕ, [], All, IfOk, OnOk};
    ghost use Rattle.std.specs.Bool.{OnTrue};
    ghost use Rattle.shape_dict.specs.declared.entries.Entry.{Entry};
    ghost use Rattle.range_core.specs.Entries.{IsCountedEntry};
    ghost use Rattle.range_core.specs.Totals.{count_at, together, total_of};

    /// Makes an empty map. It takes no memory.
    pub fn new(alloc: Global) -> Sums
        ensures { result ≡ [] }
    {
        Sums {
            rows: Vec::new(alloc),
            taken: 0,
            most: 0,
        }
    }

    /// Removes all entries, and makes `places` places. It takes memory if there were fewer.
    ///
    /// # Errors
    ///
    /// `AllocError` if memory was refused: there is no place then.
    pub(crate) fn clear(&mut self, places: usize) -> Result<(), AllocError>
        ensures { self.new ≡ [] }
    {
        self.taken = 0;
        self.most = places - places / 8;
        free_rows(&mut self.rows, places)
    }

    /// How many patterns there are.
    pub(crate) fn len(&self) -> usize {
        self.taken
    }

    /// Adds an entry to the sums of its pattern. Returns whether it was added: false if both its
    /// counts are 0, if a sum would pass 2^64 - 1, or if seven eighths of the places are taken,
    /// even if one of them is the pattern's.
    #[inline(always)]
    pub(crate) fn add(&mut self, entry: &Entry) -> bool
        ensures { OnTrue result ((shape : ℕ) → total_of shape self.new
            ≡ together (total_of shape self.old) (count_at shape entry.now)) }
    {
        if self.taken >= self.most {
            return false;
        }
        if is_free(entry) {
            return false;
        }
        let Some(place) = find(FACTOR, self.rows.as_slice(), entry.shape) else {
            return false;
        };
        let row = self.rows[place];
        let Some(more) = summed(&row, entry) else {
            return false;
        };
        self.taken = self.taken.wrapping_add(is_free(&row) as usize);
        // For the proof alone: its word is the least of its images.
        let _ = more.shape.word();
        self.rows[place] = more;
        true
    }

    /// Adds each entry to the sums of its pattern. Returns false at the first that `add` can't add;
    /// those before it stay added.
    pub(crate) fn add_all(&mut self, entries: &[Entry]) -> bool
        ensures { OnTrue result ((shape : ℕ) → total_of shape self.new
            ≡ together (total_of shape self.old) (total_of shape entries.now)) }
    {
        for entry in entries {
            if !self.add(entry) {
                return false;
            }
        }
        true
    }

    /// Appends the summed entry of each pattern to `list`.
    ///
    /// # Errors
    ///
    /// `AllocError` if memory was refused: some may have been appended then.
    pub(crate) fn append_to(&self, list: &mut Vec<Entry>) -> Result<(), AllocError>
        ensures entries { OnOk result (list.new.items ≡ list.old.items ++ self.now) }
        ensures counted { OnOk result (All IsCountedEntry self.now) }
    {
        for row in self.rows.as_slice() {
            if !is_free(row) {
                list.push(*row)?;
            }
        }
        Ok(())
    }

    /// Adds the summed entry of each pattern to `list`.
    ///
    /// # Errors
    ///
    /// `AllocError` if memory was refused: some may have been added then.
    pub(crate) fn add_to(&self, list: &mut RecordList) -> Result<(), AllocError>
        ensures { OnOk result ((shape : ℕ) → total_of shape list.new
            ≡ together (total_of shape list.old) (total_of shape self.now)) }
    {
        for row in self.rows.as_slice() {
            if !is_free(row) {
                list.push(*row)?;
            }
        }
        Ok(())
    }
}
