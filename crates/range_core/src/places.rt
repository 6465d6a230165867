//! Finds the row of a pattern in a list of rows (an entry for each pattern, or a free one), by open
//! addressing from place to next place.
ghost use Rattle.std.specs.Prelude.{◌≡◌, ◌+◌, ◌<◌, ℕ, [], not, length, IfSome, IfNone};
ghost use Rattle.std.specs.Prelude.{OnOk, OnErr};
ghost use Rattle.range_core.specs.Entries.{IsShape};
ghost use Rattle.range_core.specs.Places.{home_of};
ghost use Rattle.range_core.specs.Rows.{next_place, is_taken, taken_of, AreRows};
ghost use Rattle.range_core.specs.Rows.{IsFound, HasNoPlace};

use go_board::Colour;
use shape_core::{Shape, Word, canonical};
use shape_dict::{Entry, FirstGame};
use std::alloc::AllocError;

/// The factor by which words of patterns are multiplied: 2^64 over the golden ratio, made odd, as
/// for the first places of the shared table. So each range of patterns has its part of that table.
pub const MULTIPLIER: u64 = 0x9E37_79B9_7F4A_7C15;

/// Returns the place, counted from 0, at which a search for a pattern begins among `places` places.
/// `factor` is the number by which its word is multiplied for that, such as `MULTIPLIER`.
#[inline(always)]
pub fn home(factor: u64, shape: Shape, places: usize) -> usize
    requires { 0 < places }
    ensures value { result ≡ home_of factor places shape }
    ensures within { result < places }
{
    let mixed = shape.word().bits().wrapping_mul(factor);
    ((u128::from(mixed) * places as u128) >> 64) as usize
}

/// Returns the place after `place`; the first of the `places` places comes after the last.
#[inline(always)]
fn next(place: usize, places: usize) -> usize
    requires { place < places }
    ensures value { result ≡ next_place places place }
    ensures within { result < places }
{
    if place + 1 == places { 0 } else { place + 1 }
}

/// Whether both counts of a row are 0, and so its place is free.
#[inline(always)]
pub fn is_free(row: &Entry) -> bool
    ensures { result ≡ not (is_taken row.now) }
{
    row.there == 0 && row.played == 0
}

/// Returns the place of a pattern's row, or else the first free place, in a search that begins at
/// the pattern's first place. None if it has no row and no place is free. `factor`, by which words
/// are multiplied (see `home`), must be that by which the rows were placed.
#[inline(always)]
pub fn find(factor: u64, rows: &[Entry], shape: Shape) -> Option<usize>
    requires { AreRows factor rows.now }
    ensures found { IfSome result (IsFound factor rows.now shape) }
    ensures none { IfNone result (HasNoPlace rows.now shape) }
{
    let places = rows.len();
    if places == 0 {
        return None;
    }
    let mut place = home(factor, shape, places);
    for _ in 0..places {
        let row = rows[place];
        if row.shape == shape || is_free(&row) {
            return Some(place);
        }
        place = next(place, places);
    }
    None
}

/// Returns a row whose counts are 0, for a free place.
fn free_row() -> Entry
    ensures shape { IsShape result }
    ensures free { result.there + result.played ≡ 0 }
{
    let Some(word) = Word::new(0) else {
        unreachable!()
    };
    let shape = canonical(word, Colour::Black);
    // For the proof alone: its word is the least of its images.
    let _ = shape.word();
    Entry {
        shape,
        there: 0,
        played: 0,
        first: FirstGame::new(None),
    }
}

/// Makes `rows` have this many places, all free. It takes memory if there were fewer.
///
/// # Errors
///
/// `AllocError` if memory was refused: there is no place then.
pub fn free_rows(rows: &mut Vec<Entry>, places: usize) -> Result<(), AllocError>
    ensures rows { (factor : ℕ) → AreRows factor rows.new.items }
    ensures free { taken_of rows.new.items ≡ [] }
    ensures places { OnOk result (length rows.new.items ≡ places) }
    ensures none { OnErr result (rows.new.items ≡ []) }
{
    rows.clear();
    rows.resize(places, free_row())?;
    Ok(())
}
