//! Counts of patterns in a hash table by open addressing: a row with counts for each pattern.
ghost use Rattle.std.specs.Prelude.{◌≡◌, ◌+◌, ◌^◌, ◌<◌, ◌≤◌, length, IfSome, IfNone};
ghost use Rattle.plain_core.specs.Inner.Rows.{counted_row};

use range_core::places::{MULTIPLIER, find, free_rows, home, is_free};
use shape_core::Shape;
use shape_dict::Entry;
use std::alloc::{AllocError, Global};
use std::marker::Model;
use tally_core::{Meeting, TallyFault};

/// How many slots the hash table has when it first gets memory.
const FIRST_PLACES: usize = 4096;

/// How many meetings (patterns of one game, each with its counts) are looked at together: few
/// enough that their rows stay in the nearest caches until they are counted.
const BLOCK: usize = 128;

/// Returns the slots in which the rows of the first `meetings` are likely to be, and for how many
/// meetings that is: `BLOCK` of them, or all if they are fewer. A row is likely in the first slot
/// that its pattern hashes to, or in the one after it if another pattern has the first. No look-up
/// waits for the one before it. A row may begin in one cache line and end in the next, so both its
/// ends are looked at.
fn likely_places(rows: &[Entry], meetings: &[Meeting]) -> ([usize; BLOCK], usize)
    requires { 0 < length rows.now }
    ensures block { result.1 ≤ BLOCK }
    ensures within { result.1 ≤ length meetings.now }
{
    let mut places = [0; BLOCK];
    let looked = meetings.len().min(BLOCK);
    for i in 0..looked {
        let shape = meetings[i].shape;
        let place = home(MULTIPLIER, shape, rows.len());
        let row = rows[place];
        let other = (row.shape != shape) & !is_free(&row);
        places[i] = place + other as usize;
    }
    (places, looked)
}

/// Returns how many of the first `meetings`, at most `BLOCK`, seem to have no row, judging by the
/// first two slots of each pattern; `BLOCK` if there are no slots. The cache lines of all these
/// slots are loaded together, so `find` finds them in a cache.
#[inline(never)]
fn count_new(rows: &[Entry], meetings: &[Meeting]) -> usize
    ensures { result ≤ BLOCK }
{
    if rows.is_empty() {
        return BLOCK;
    }
    let (places, looked) = likely_places(rows, meetings);
    let mut count = 0;
    for i in 0..looked {
        let row = rows[places[i].min(rows.len() - 1)];
        count += ((row.shape != meetings[i].shape) | is_free(&row)) as usize;
    }
    count
}

/// Returns a copy of `row` with the counts of `entry` added. `row` is that of the entry's pattern,
/// or a free one: then the copy gets the entry's pattern and first game. None if a count passes
/// 2^64 - 1.
fn counted(row: &Entry, entry: &Entry) -> Option<Entry>
    ensures some { IfSome result (λ more. more ≡ counted_row row.now entry.now) }
    ensures none { IfNone result
        (2 ^ 64 ≤ row.now.there + row.now.played + entry.now.there + entry.now.played) }
{
    Some(Entry {
        shape: entry.shape,
        there: row.there.checked_add(entry.there)?,
        played: row.played.checked_add(entry.played)?,
        first: if is_free(row) { entry.first } else { row.first },
    })
}

/// Counts of patterns, each found by its word. Contracts see the patterns with their counts, in the
/// order of their slots in the hash table, which changes when the table grows. No pattern is there
/// twice.
#[derive(Drop)]
pub struct Counts {
    alloc: Global,
    /// The slots of the hash table: each has the row of a pattern with its counts, or a free row,
    /// whose counts are both 0.
    rows: Vec<Entry>,
    /// How many slots are taken, which is how many patterns have counts.
    taken: usize,
    /// How many new patterns the next `BLOCK` meetings are likely to have.
    expected: usize,
}

impl Model for Counts {
    ghost use Rattle.std.specs.Prelude.{◌≡◌, ℕ, List, length};
    ghost use Rattle.plain_core.specs.Inner.Count.{Count};
    ghost use Rattle.plain_core.specs.Inner.Entries.{pairs_of};
    ghost use Rattle.range_core.specs.Places.{place_factor};
    ghost use Rattle.range_core.specs.Rows.{taken_of, AreRows};

    ghost Value = { List (ℕ × Count) };

    ghost view = { λ c. pairs_of (taken_of c.rows.items) };

    ghost invariant = { λ c. AreRows place_factor c.rows.items
        × (c.taken ≡ length (taken_of c.rows.items)) };
}

impl Counts {
    ghost use Rattle.std.specs.Prelude.{◌≡◌, ◌+◌, ◌<◌, ◌≤◌, ◌^◌, ℕ, [], nat_eq, length, map};
    ghost use Rattle.std.specs.Prelude.{All, OnOk, IfOk, IfErr};
    ghost use Rattle.std.specs.List.{IsDistinct};
    ghost use Rattle.std.specs.Map.{keys_of};
    ghost use Rattle.plain_core.specs.Inner.Counter.{count_in, AreCounts, IsCountingFault};
    ghost use Rattle.plain_core.specs.Inner.Entries.{entry_of_pair, counts_of, counted_with};
    ghost use Rattle.range_core.specs.Rows.{AreRows};
    ghost use Rattle.range_core.specs.Entries.{IsShape};

    /// Makes an empty table of counts. It takes no memory.
    pub fn new(alloc: Global) -> Counts
        ensures { result ≡ [] }
    {
        Counts {
            alloc,
            rows: Vec::new(alloc),
            taken: 0,
            expected: 0,
        }
    }

    /// Makes an empty table of counts with `places` slots. It takes memory for them; `AllocError`
    /// if that is refused.
    fn with_places(alloc: Global, places: usize) -> Result<Counts, AllocError>
        ensures { IfOk result (λ counts. counts ≡ []) }
    {
        let mut rows = Vec::new(alloc);
        free_rows(&mut rows, places)?;
        Ok(Counts {
            alloc,
            rows,
            taken: 0,
            expected: 0,
        })
    }

    /// Makes an empty table of counts with room for about `rows` patterns. If memory for them is
    /// refused, it has no slots yet, like one from `new`.
    pub fn with_room(alloc: Global, rows: usize) -> Counts
        ensures { result ≡ [] }
    {
        match Counts::with_places(alloc, rows.saturating_mul(4) / 3) {
            Ok(counts) => counts,
            Err(AllocError) => Counts::new(alloc),
        }
    }

    /// Returns how many patterns have counts.
    pub fn len(&self) -> usize
        ensures len { result ≡ length self.now }
        ensures once { IsDistinct nat_eq (keys_of self.now) }
        ensures counted { All (λ pair. 0 < pair.1.there + pair.1.played) self.now }
        ensures small { length self.now < 2 ^ 63 }
    {
        self.taken
    }

    /// Turns the counts into entries of a dictionary, in the order of the slots of the hash table,
    /// which is not that of the patterns' words. It takes no memory.
    pub fn into_entries(self) -> Vec<Entry>
        ensures entries { result.items ≡ map entry_of_pair self }
        ensures shapes { All IsShape result.items }
        ensures counted { All (λ entry. 0 < entry.there + entry.played) result.items }
        ensures once { IsDistinct nat_eq (keys_of self) }
    {
        let mut rows = self.rows;
        rows.retain(|row| !is_free(row));
        rows
    }

    /// If `at` is a multiple of `BLOCK`, notes for `add` how many new rows the next `BLOCK`
    /// meetings, from index `at` on, seem to need. Looking them up loads into the cache the rows in
    /// which they will be counted. It takes no memory.
    #[inline(always)]
    pub fn expect(&mut self, meetings: &[Meeting], at: usize)
        requires { at ≤ length meetings.now }
        ensures { self.new ≡ self.old }
    {
        if at % BLOCK == 0 {
            self.expected = count_new(self.rows.as_slice(), &meetings[at..]);
        }
    }

    /// Adds an entry to the counts of its pattern, if that has a row or a slot is free. If the
    /// pattern has no count yet, the entry's game is its first. Does nothing for an entry whose
    /// counts are both 0. `TallyFault::Memory` if no slot is free, `TallyFault::Overflow` if a
    /// count would pass 2^64 - 1; nothing changes then. It takes no memory.
    #[inline(always)]
    fn enter(&mut self, entry: &Entry) -> Result<(), TallyFault>
        ensures ok { OnOk result
            (AreCounts (counted_with entry.now (count_in self.old)) (count_in self.new)) }
        ensures fault { IfErr result
            (IsCountingFault 0 (counted_with entry.now (count_in self.old))) }
    {
        if is_free(entry) {
            return Ok(());
        }
        let Some(place) = find(MULTIPLIER, self.rows.as_slice(), entry.shape) else {
            return Err(TallyFault::Memory);
        };
        let row = self.rows[place];
        let Some(more) = counted(&row, entry) else {
            return Err(TallyFault::Overflow);
        };
        // For the proof alone: the word of a shape is the least of its images (the word turned and
        // mirrored).
        let _ = entry.shape.word();
        self.taken += is_free(&row) as usize;
        self.rows[place] = more;
        Ok(())
    }

    /// Adds the counts of `rows`, the slots of another hash table (with free ones among them), to
    /// `self`, which must be empty. The contract holds whatever `factor` the hash of that table
    /// multiplies words by. It takes no memory. `AllocError` means that a row was not added, for
    /// either reason: no slot is free for its pattern, or a count would pass 2^64 - 1. The rows
    /// before it stay added.
    fn enter_all(&mut self, rows: &[Entry]) -> Result<(), AllocError>
        requires none { self.old ≡ [] }
        requires rows { (factor : ℕ) × AreRows factor rows.now }
        ensures { OnOk result
            (AreCounts (counts_of rows.now) (count_in self.new)) }
    {
        for row in rows {
            let Ok(()) = self.enter(row) else {
                return Err(AllocError);
            };
        }
        Ok(())
    }

    /// Doubles the slots, or makes the first `FIRST_PLACES`, and enters each row again. It takes
    /// memory; `AllocError` if that is refused, and nothing changes then.
    fn grow(&mut self) -> Result<(), AllocError>
        ensures { AreCounts (count_in self.old) (count_in self.new) }
    {
        let places = self.rows.len().saturating_mul(2).max(FIRST_PLACES);
        let mut larger = Counts::with_places(self.alloc, places)?;
        larger.enter_all(self.rows.as_slice())?;
        *self = larger;
        Ok(())
    }

    /// Adds an entry to the counts of its pattern. If the pattern has no count yet, the entry's
    /// game is its first. It first doubles the table, which takes memory, if with the new rows that
    /// `expect` noted a quarter of the slots would not stay free. `TallyFault::Memory` if that is
    /// refused, `TallyFault::Overflow` if a count would pass 2^64 - 1; nothing is added then.
    pub fn add(&mut self, entry: Entry) -> Result<(), TallyFault>
        ensures ok { OnOk result
            (AreCounts (counted_with entry (count_in self.old)) (count_in self.new)) }
        ensures fault { IfErr result (IsCountingFault 0 (counted_with entry (count_in self.old))) }
    {
        if self.taken.saturating_add(self.expected) >= self.rows.len() / 4 * 3 {
            self.grow()?;
        }
        self.enter(&entry)
    }
}
