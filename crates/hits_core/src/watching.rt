//! Finds each time in a game that a wanted pattern was there: for each colour it keeps the points
//! that may have one, and looks only at these.
ghost use Rattle.std.specs.Prelude.{◌≡◌, ◌<◌, ◌∷◌, [], map, false, ℕ, List, IfOk, IfErr, OnOk};
ghost use Rattle.std.specs.List.{flat_map};
ghost use Rattle.go_board.specs.Board.{position_of};
ghost use Rattle.go_board.specs.Point.{IsOn};
ghost use Rattle.go_record.specs.Actions.{IsActionOn};
ghost use Rattle.go_record.specs.Replay.{Does};
ghost use Rattle.tally_core.specs.Occasions.{occasion_of};
ghost use Rattle.tally_core.specs.Counts.{row_of, points_of};
ghost use Rattle.tally_core.specs.declared.faults.TallyFault.TheVariants as fault;
ghost use Rattle.hits_core.specs.Hits.{hits_of_turn};
ghost use Rattle.hits_core.specs.Wanted.{wanted_at};
ghost use Rattle.hits_core.specs.Turns.{turn_of};
ghost use Rattle.hits_core.specs.declared.searches.Sought.TheVariants as sought;
ghost use Rattle.hits_core.specs.Inner.Finding.{GrowsBy, AddsGame, patterns_in};
ghost use Rattle.hits_core.specs.Inner.Watching.{KeepsWanted, hits_over, HasNone, IsOpenRow, AreOpen};
ghost use Rattle.hits_core.specs.Inner.Watching.{IsOpenAt, IsBitOrNone, IsWatched, IsNewWatch};

use crate::found::Found;
use crate::games::Game;
use crate::looking::{Moment, Sight, push_sight};
use crate::playing::number_after;
use crate::wanted::Wanted;
use go_board::{Colour, Point, Stone};
use go_record::{Action, apply};
use shape_core::{Field, Kinds, kinds_stay};
use std::alloc::Global;
use tally_core::TallyFault;

/// A game that is being replayed. For each colour it has the points that have to be looked at when
/// that colour is to move: for each row a bit for each column. Each other point has no wanted
/// pattern for that colour.
#[derive(Drop)]
pub(crate) struct Watch {
    pub(crate) field: Field,
    pub(crate) black: Vec<u64>,
    pub(crate) white: Vec<u64>,
}

/// Returns the wanted patterns that `point` has for the player `mover`: its square and its diamond
/// in canonical form, each None if it is not one of `wanted`. `field`, a board with a word for each
/// point, must have words of the kinds that `wanted` has.
fn see_field(field: &Field, wanted: &Wanted, mover: Colour, point: Point) -> Sight
    requires on_board { IsOn field.now.board.size point }
    requires kinds { KeepsWanted field.now wanted.now }
    ensures { patterns_in result ≡ wanted_at wanted.now field.now.board.size
        (position_of field.now.board) mover point }
{
    // For the proof: a canonical word is of the kind that was looked at.
    kinds_stay();
    let square = wanted.pick(field.canonical(point, mover));
    let diamond = match field.kinds() {
        Kinds::Squares => None,
        Kinds::Both => wanted.pick(field.canonical_diamond(point, mover)),
    };
    Sight { square, diamond }
}

/// Adds to `found` a hit for each wanted pattern that `point` has before the move `moment`. Returns
/// whether it has any; a point with a stone has none.
fn see_point(
    field: &Field,
    wanted: &Wanted,
    moment: Moment,
    point: Point,
    found: &mut Found,
) -> Result<bool, TallyFault>
    requires on_board { IsOn field.now.board.size point }
    requires kinds { KeepsWanted field.now wanted.now }
    ensures grown { OnOk result (GrowsBy found.old found.new
        (hits_over wanted.now field.now moment (point ∷ []))) }
    ensures none { IfOk result (λ some. some ≡ false
        → HasNone wanted.now field.now moment.mover point) }
    ensures fault { IfErr result (λ found. found ≡ fault.Memory) }
{
    if field.cell(point) != Stone::Empty {
        return Ok(false);
    }
    let sight = see_field(field, wanted, moment.mover, point);
    push_sight(found, moment, point, sight)?;
    Ok(sight.square.is_some() || sight.diamond.is_some())
}

/// Looks at `point` if its bit (that of its column) is set in `bits`, and adds its hits to `found`.
/// Returns the bit if the point has a wanted pattern, else 0. A point whose bit is not set must
/// have none.
fn see_bit(
    field: &Field,
    wanted: &Wanted,
    moment: Moment,
    point: Point,
    bits: u64,
    found: &mut Found,
) -> Result<u64, TallyFault>
    requires on_board { IsOn field.now.board.size point }
    requires small { point.column < 64 }
    requires kinds { KeepsWanted field.now wanted.now }
    requires open { IsOpenAt wanted.now field.now moment.mover bits point }
    ensures grown { OnOk result (GrowsBy found.old found.new
        (hits_over wanted.now field.now moment (point ∷ []))) }
    ensures bit { IfOk result (λ bit. IsBitOrNone wanted.now field.now moment.mover bit point) }
    ensures fault { IfErr result (λ found. found ≡ fault.Memory) }
{
    if (bits >> point.column) & 1 == 0 {
        return Ok(0);
    }
    if !see_point(field, wanted, moment, point, found)? {
        return Ok(0);
    }
    Ok(1 << point.column)
}

/// Looks at the points of `row` whose bits (one for each column) are set in `bits`, from the left,
/// and adds their hits to `found`. Returns the bits of those that have a wanted pattern. The other
/// points of the row must have none.
fn see_row(
    field: &Field,
    wanted: &Wanted,
    moment: Moment,
    row: u8,
    bits: u64,
    found: &mut Found,
) -> Result<u64, TallyFault>
    requires row { row < field.now.board.size.rows }
    requires kinds { KeepsWanted field.now wanted.now }
    requires open { IsOpenRow wanted.now field.now moment.mover row bits }
    ensures grown { OnOk result (GrowsBy found.old found.new
        (hits_over wanted.now field.now moment (row_of field.now.board.size row))) }
    ensures open { IfOk result (IsOpenRow wanted.now field.now moment.mover row) }
    ensures fault { IfErr result (λ found. found ≡ fault.Memory) }
{
    let mut left = 0;
    if bits == 0 {
        return Ok(left);
    }
    for column in 0..field.size().columns() {
        left |= see_bit(field, wanted, moment, Point { column, row }, bits, found)?;
    }
    Ok(left)
}

/// Looks at the points whose bits are set in `open_rows` (a word for each row, a bit for each
/// column), row by row from the top, each row from the left. Adds their hits to `found`, and clears
/// the bits of points without a wanted pattern.
fn see(
    field: &Field,
    wanted: &Wanted,
    moment: Moment,
    open_rows: &mut [u64],
    found: &mut Found,
) -> Result<(), TallyFault>
    requires kinds { KeepsWanted field.now wanted.now }
    requires open { AreOpen wanted.now field.now moment.mover open_rows.old }
    ensures grown { OnOk result (GrowsBy found.old found.new
        (hits_over wanted.now field.now moment (points_of field.now.board.size))) }
    ensures open { OnOk result (AreOpen wanted.now field.now moment.mover open_rows.new) }
    ensures fault { IfErr result (λ found. found ≡ fault.Memory) }
{
    for row in 0..field.size().rows() {
        let at = usize::from(row);
        open_rows[at] = see_row(field, wanted, moment, row, open_rows[at], found)?;
    }
    Ok(())
}

impl Watch {
    /// Makes the `Watch` of `game` at its empty board: for both colours every point has to be
    /// looked at. It takes memory for each point.
    fn begin(alloc: Global, wanted: &Wanted, game: &Game) -> Result<Watch, TallyFault>
        ensures watched { IfOk result (IsWatched wanted.now) }
        ensures begun { IfOk result (IsNewWatch game.now.recorded.size) }
        ensures fault { IfErr result (λ found. found ≡ fault.Memory) }
    {
        let size = game.recorded.size();
        let columns = usize::from(size.columns());
        let rows = usize::from(size.rows());
        let field = Field::with_kinds(alloc, size, wanted.kinds())?;
        let black = vec![in alloc; (1 << columns) - 1; rows]?;
        let white = vec![in alloc; (1 << columns) - 1; rows]?;
        Ok(Watch {
            field,
            black,
            white,
        })
    }

    /// Adds to `found` the hits in the position before `action`, if that is a move onto an empty
    /// point. `number` is the number of the move in the game.
    fn look(
        &mut self,
        wanted: &Wanted,
        game: &Game,
        number: u64,
        action: Action,
        found: &mut Found,
    ) -> Result<(), TallyFault>
        requires on_board { IsActionOn self.old.field.board.size action }
        requires size { self.old.field.board.size ≡ game.now.recorded.size }
        requires watched { IsWatched wanted.now self.old }
        ensures grown { OnOk result (GrowsBy found.old found.new
            (flat_map (hits_of_turn sought.There wanted.now game.now)
            (map (turn_of number) (occasion_of (position_of self.old.field.board) action)))) }
        ensures watched { OnOk result (IsWatched wanted.now self.new) }
        ensures field { self.new.field ≡ self.old.field }
        ensures fault { IfErr result (λ found. found ≡ fault.Memory) }
    {
        let Action::Move { colour, at } = action else {
            return Ok(());
        };
        if self.field.cell(at) != Stone::Empty {
            return Ok(());
        }
        let moment = Moment::of(game, number, colour);
        match colour {
            Colour::Black => see(&self.field, wanted, moment, &mut self.black, found),
            Colour::White => see(&self.field, wanted, moment, &mut self.white, found),
        }
    }

    /// Applies `action` to the board, and marks the points whose words change: they have to be
    /// looked at again, for both colours.
    fn act(&mut self, action: Action)
        requires on_board { IsActionOn self.old.field.board.size action }
        requires watched { (words : List ℕ) × IsWatched words self.old }
        ensures watched { (words : List ℕ) → IsWatched words self.old → IsWatched words self.new }
        ensures size { self.new.field.board.size ≡ self.old.field.board.size }
        ensures does { Does self.old.field.board.size action (position_of self.old.field.board)
            (position_of self.new.field.board) }
    {
        // For the proof: a canonical word is of the kind that was looked at.
        kinds_stay();
        apply(&mut self.field, action);
        self.field.move_changed(&mut self.black, &mut self.white);
    }
}

/// Replays `game`, and adds to `found` each time that a pattern of `wanted` was there. It takes
/// memory for a board with a word for each point. The only error is `Memory`: memory was refused.
pub(crate) fn find_there(
    alloc: Global,
    wanted: &Wanted,
    game: &Game,
    found: &mut Found,
) -> Result<(), TallyFault>
    ensures grown { OnOk result (AddsGame sought.There wanted.now game.now found.old found.new) }
    ensures fault { IfErr result (λ found. found ≡ fault.Memory) }
{
    let mut watch = Watch::begin(alloc, wanted, game)?;
    let actions = game.recorded.actions();
    let mut number = 1;
    for action in actions {
        watch.look(wanted, game, number, *action, found)?;
        watch.act(*action);
        number = number_after(number, *action);
    }
    Ok(())
}
