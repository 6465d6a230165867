//! The rows of a share, which is what one worker has counted. A row has the counts of one pattern,
//! and is found by the pattern's number in the table.
ghost use Rattle.std.specs.Prelude.{◌≡◌, ◌+◌, ◌^◌, ◌<◌, ◌≤◌, IfSome, IfNone};
ghost use Rattle.sgf_core.specs.Limit.{most_bytes};
ghost use Rattle.table_shares.specs.Rows.{blank};
ghost use Rattle.table_shares.specs.Inner.Raising.{raised};

use gather_core::Row;
use harvest_faults::HarvestFault;
use probe_core::Answer;
use shape_core::Shape;
use shape_dict::FirstGame;
use std::alloc::Global;
use std::collections::BTreeMap;
use std::marker::Model;
use tally_core::Meeting;

/// Returns a row of the pattern `shape` under this `number` (slot), whose counts are 0 and which
/// has no game yet.
fn blank_row(number: usize, shape: Shape) -> Row
    ensures { result ≡ blank number shape }
{
    Row {
        number,
        shape,
        there: 0,
        played: 0,
        first: FirstGame::new(None),
    }
}

/// Adds the counts of a game's `meeting`, which is of the row's pattern, to the row. The row's
/// least game becomes `game` if it had none or a greater one.
fn raise_row(row: &mut Row, meeting: Meeting, game: u64)
    requires there { row.old.there + meeting.there < 2 ^ 64 }
    requires played { row.old.played + meeting.played < 2 ^ 64 }
    requires game { game < most_bytes }
    ensures { row.new ≡ raised row.old meeting game }
{
    row.there += meeting.there;
    row.played += meeting.played;
    let first = row.first.get().map_or(game, |first| first.min(game));
    row.first = FirstGame::new(Some(first));
}

/// Adds the counts `there` and `played` of one more pattern to `weight`, a sum of counts. Returns
/// None if the new sum would pass 2^64 - 1.
pub(crate) fn with_counts(weight: u64, there: u64, played: u64) -> Option<u64>
    ensures some { IfSome result (λ total. total ≡ weight + (there + played)) }
    ensures none { IfNone result (2 ^ 64 ≤ weight + (there + played)) }
{
    weight.checked_add(there)?.checked_add(played)
}

/// Rows (one pattern's counts each) in the order in which they were made, with a map from each
/// row's number (the pattern's slot in the table) to its index in the list. `weight` is the sum of
/// all counts of the rows: no count is greater, so none overflows while `weight` doesn't. Contracts
/// see the rows.
#[derive(Drop)]
pub(crate) struct Rows {
    places: BTreeMap<usize, usize>,
    rows: Vec<Row>,
    weight: u64,
}

impl Model for Rows {
    ghost use Rattle.std.specs.Prelude.{◌≡◌, List};
    ghost use Rattle.gather_core.specs.declared.rows.Row.{Row};
    ghost use Rattle.table_shares.specs.Raising.{weight_of};
    ghost use Rattle.table_shares.specs.Inner.Rows.{ArePlaces};

    ghost Value = { List Row };

    ghost view = { λ r. r.rows.items };

    ghost invariant = { λ r. ArePlaces r.places r.rows.items
        × (r.weight ≡ weight_of r.rows.items) };
}

impl Rows {
    ghost use Rattle.sgf_core.specs.Limit.{most_bytes};
    ghost use Rattle.std.specs.Prelude.{◌≡◌, ◌+◌, ◌^◌, ◌<◌, ◌≤◌, ◌++◌, ◌∷◌, ◌⊎◌, [], length};
    ghost use Rattle.std.specs.Prelude.{IfSome, IfNone, IfOk, IfErr, OnOk, OnErr};
    ghost use Rattle.table_shares.specs.Rows.{row_at, AreOfNumbers};
    ghost use Rattle.table_shares.specs.Raising.{weight_of};
    ghost use Rattle.table_shares.specs.Adding.{IsRowed};
    ghost use Rattle.table_shares.specs.Inner.Rows.{HasNoRow};
    ghost use Rattle.table_shares.specs.ShareRows.{IsLeastFrom};
    ghost use Rattle.table_shares.specs.Inner.Making.{IsBelow, IsBlankOf, IsRowFault, IsAppendFault};
    ghost use Rattle.table_shares.specs.Inner.Raising.{HasRowFor, IsRaised};

    /// Makes an empty list of rows. It takes no memory.
    pub fn begin(alloc: Global) -> Rows
        ensures { result ≡ [] }
    {
        Rows {
            places: BTreeMap::new(alloc),
            rows: Vec::new(alloc),
            weight: 0,
        }
    }

    /// Returns the rows, in the order in which they were made.
    pub fn as_slice(&self) -> &[Row]
        ensures rows { result.now ≡ self.now }
        ensures numbers { AreOfNumbers self.now }
    {
        self.rows.as_slice()
    }

    /// Returns the sum of all counts of the rows.
    pub fn weight(&self) -> u64
        ensures { result ≡ weight_of self.now }
    {
        self.weight
    }

    /// Returns the index in the list of the row that has this number; None if there is no such row.
    pub fn place(&self, number: usize) -> Option<usize>
        ensures some { IfSome result (λ place. (place < length self.now)
            × ((row_at self.now place).number ≡ number)) }
        ensures none { IfNone result (HasNoRow self.now number) }
    {
        self.places.get(&number).copied()
    }

    /// Returns the row of the least number that is `from` or greater; None if there is no such row.
    pub fn first_from(&self, from: usize) -> Option<Row>
        ensures least { IsLeastFrom from self.now result }
        ensures small { IfSome result (λ row. row.number < 2 ^ 22) }
    {
        let (_, place) = self.places.range(from..).next()?;
        Some(self.rows[*place])
    }

    /// Makes a row with counts of 0 for the pattern `shape`, under the number in the table's answer
    /// `found`, unless that number has a row. If the answer is no number, nothing is done.
    ///
    /// # Errors
    ///
    /// `Stranger` if the number's row is of another pattern; `Memory` if memory was refused. After
    /// either the rows are as they were.
    pub fn make(&mut self, found: Answer, shape: Shape) -> Result<(), HarvestFault>
        requires { IsBelow (2 ^ 22) found }
        ensures rowed { OnOk result (IsRowed self.new shape found) }
        ensures grown { (self.new ≡ self.old) ⊎ IsBlankOf found shape self.old self.new }
        ensures fault { IfErr result (IsRowFault found shape self.new) }
    {
        let Answer::Number(number) = found else {
            return Ok(());
        };
        let Some(place) = self.place(number) else {
            return self.append(blank_row(number, shape));
        };
        let held = self.rows[place].shape;
        if held == shape {
            return Ok(());
        }
        Err(HarvestFault::stranger(number, held.word(), Some(shape.word())))
    }

    /// Appends a row to the list. Its number must have no row yet.
    ///
    /// # Errors
    ///
    /// `Overflow` if all counts together would pass 2^64 - 1; `Memory` if memory was refused. After
    /// either the rows are as they were.
    fn append(&mut self, row: Row) -> Result<(), HarvestFault>
        requires small { row.number < 2 ^ 22 }
        requires none { HasNoRow self.old row.number }
        ensures ok { OnOk result (self.new ≡ self.old ++ row ∷ []) }
        ensures same { OnErr result (self.new ≡ self.old) }
        ensures fault { IfErr result (IsAppendFault row self.old) }
    {
        let Some(weight) = with_counts(self.weight, row.there, row.played) else {
            return Err(HarvestFault::Overflow);
        };
        let place = self.rows.as_slice().len();
        // All memory is taken before the row is appended, so that the map has no index without a
        // row.
        self.rows.reserve(1)?;
        self.places.insert(row.number, place)?;
        self.rows.push_reserved(row);
        self.weight = weight;
        Ok(())
    }

    /// Adds the counts of a `meeting` (a pattern of the game with number `game`) to the row of the
    /// number in `found`, the table's answer for that pattern. If the answer is no number, nothing
    /// is done.
    pub fn raise(&mut self, found: Answer, meeting: Meeting, game: u64)
        requires row { HasRowFor self.old found meeting.shape }
        requires fits { weight_of self.old + (meeting.there + meeting.played) < 2 ^ 64 }
        requires game { game < most_bytes }
        ensures { IsRaised found meeting game self.old self.new }
    {
        let Answer::Number(number) = found else {
            return;
        };
        let Some(place) = self.place(number) else {
            return;
        };
        let uses = meeting.there + meeting.played;
        self.weight += uses;
        raise_row(&mut self.rows[place], meeting, game);
    }
}
