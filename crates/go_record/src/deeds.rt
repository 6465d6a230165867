//! What one value of a move or a setup property does. A setup puts stones or removes them, and
//! captures nothing.
ghost use Rattle.std.specs.Prelude.{◌≡◌, ◌≢◌, ◌<◌, ℕ, IfOk, IfErr, IfSome};
ghost use Rattle.sgf_core.specs.Values.{value_of};
ghost use Rattle.go_record.specs.Actions.{IsActionOn};
ghost use Rattle.go_record.specs.Setup.{is_pass, move_of, spanned, setup_of};
ghost use Rattle.go_record.specs.declared.faults.RecordFault.TheVariants as fault;

use crate::actions::Action;
use crate::faults::RecordFault;
use crate::spelling::{point, split_colon, trimmed};
use go_board::{Colour, Point, Size, Stone};
use sgf_core::Value;

/// Whether the `text` of a move's value spells a pass: it is empty, or `tt` if no side of the board
/// is over 19.
fn is_pass(size: Size, text: &[u8]) -> bool
    ensures { result ≡ is_pass size text.now }
{
    match text {
        [] => true,
        [column, row] => {
            *column == b't' && *row == b't' && size.columns() <= 19 && size.rows() <= 19
        }
        _ => false,
    }
}

/// Returns the move or the pass of this `colour` that a value spells. A pass is an empty value, or
/// `tt` if no side of the board is over 19. `BadPoint` if the value spells neither, `OffBoard` if
/// the point is off the board.
fn move_of(size: Size, colour: Colour, value: Value<'_>) -> Result<Action, RecordFault>
    ensures value { result ≡ move_of size colour (value_of value.entry) }
    ensures on_board { IfOk result (IsActionOn size) }
    ensures takes_none { IfErr result (λ found. found ≢ fault.Memory) }
{
    let text = trimmed(value.bytes);
    if is_pass(size, text) {
        return Ok(Action::Pass { colour });
    }
    match point(text) {
        None => Err(RecordFault::BadPoint(value.at)),
        Some(point) => {
            if size.has(point) {
                Ok(Action::Move { colour, at: point })
            } else {
                Err(RecordFault::OffBoard(value.at))
            }
        }
    }
}

/// Makes the action that puts `stone` on the rectangle between the corners `p` and `q`, which may
/// be any two opposite ones. `BadPoint` if a corner is None, which means that it was misspelled,
/// and else `OffBoard` if one is off the board. `at` is the value's byte offset in the input, for
/// the fault.
fn spanned(
    size: Size,
    stone: Stone,
    at: usize,
    p: Option<Point>,
    q: Option<Point>,
) -> Result<Action, RecordFault>
    ensures value { result ≡ spanned size stone at p q }
    ensures on_board { IfOk result (IsActionOn size) }
    ensures takes_none { IfErr result (λ found. found ≢ fault.Memory) }
{
    match (p, q) {
        (Some(p), Some(q)) => {
            if !size.has(p) || !size.has(q) {
                return Err(RecordFault::OffBoard(at));
            }
            let low = Point {
                column: p.column.min(q.column),
                row: p.row.min(q.row),
            };
            let high = Point {
                column: p.column.max(q.column),
                row: p.row.max(q.row),
            };
            Ok(Action::Set { low, high, stone })
        }
        _ => Err(RecordFault::BadPoint(at)),
    }
}

/// Returns the setup that puts `stone` on the point or the rectangle that a value spells, or None
/// if the value is empty and sets nothing. `BadPoint` if it is misspelled, `OffBoard` if a corner
/// is off the board.
fn setup_of(size: Size, stone: Stone, value: Value<'_>) -> Result<Option<Action>, RecordFault>
    ensures value { result ≡ setup_of size stone (value_of value.entry) }
    ensures on_board { IfOk result (λ deed. IfSome deed (IsActionOn size)) }
    ensures takes_none { IfErr result (λ found. found ≢ fault.Memory) }
{
    let text = trimmed(value.bytes);
    if text.is_empty() {
        return Ok(None);
    }
    let (p, q) = match split_colon(text) {
        Some((p, q)) => (point(trimmed(p)), point(trimmed(q))),
        None => (point(text), point(text)),
    };
    let action = spanned(size, stone, value.at, p, q)?;
    Ok(Some(action))
}

/// What a property does with each of its values.
#[derive(Clone, Copy)]
pub(crate) enum Deed {
    /// It puts this stone on points, or empties them.
    Setup(Stone),
    /// It plays stones of this colour, or passes.
    Move(Colour),
}

impl Deed {
    ghost use Rattle.go_record.specs.Inner.Adding.{action_of};
    ghost use Rattle.go_record.specs.declared.faults.RecordFault.TheVariants as fault;

    /// Returns the action of one of the property's values, or None if it is an empty setup value,
    /// which does nothing. `BadPoint` if the value is misspelled, `OffBoard` if a point of it is
    /// off the board.
    pub(crate) fn action(self, size: Size, value: Value<'_>) -> Result<Option<Action>, RecordFault>
        ensures value { result ≡ action_of size self (value_of value.entry) }
        ensures on_board { IfOk result (λ action. IfSome action (IsActionOn size)) }
        ensures takes_none { IfErr result (λ found. found ≢ fault.Memory) }
    {
        match self {
            Deed::Setup(stone) => setup_of(size, stone, value),
            Deed::Move(colour) => {
                let action = move_of(size, colour, value)?;
                Ok(Some(action))
            }
        }
    }
}
