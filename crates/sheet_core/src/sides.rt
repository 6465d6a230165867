//! The sides of a cell, and where the board ends.
ghost use Rattle.std.specs.Prelude.{◌≡◌, ◌+◌, ◌==◌};
ghost use Rattle.sheet_core.specs.Sides.{is_beside, ends_at, is_end};

use crate::cells::{Cell, is_on};

/// A side of a cell.
#[derive(Clone, Copy)]
pub(crate) enum Side {
    Right,
    Below,
    Left,
    Above,
}

/// Whether `next` is `number` plus one.
fn is_next(number: u8, next: u8) -> bool
    ensures { result ≡ (next == number + 1) }
{
    u16::from(next) == u16::from(number) + 1
}

/// Whether `other` is the next cell on this `side` of `cell`.
fn is_beside(side: Side, cell: Cell, other: Cell) -> bool
    ensures { result ≡ is_beside side cell other }
{
    match side {
        Side::Right => other.row == cell.row && is_next(cell.column, other.column),
        Side::Below => other.column == cell.column && is_next(cell.row, other.row),
        Side::Left => other.row == cell.row && is_next(other.column, cell.column),
        Side::Above => other.column == cell.column && is_next(other.row, cell.row),
    }
}

/// Whether `other` is the next cell on this `side` of `cell`, and is off the board.
fn is_end(side: Side, cell: Cell, other: Cell) -> bool
    ensures { result ≡ is_end side cell other }
{
    is_beside(side, cell, other) && !is_on(other)
}

/// Whether the board is known to end on this `side` of `cell`: the next one of the pattern's
/// `cells` there is off the board. False if the pattern has no cell there, since the pattern does
/// not say what is outside of it.
pub(crate) fn ends_at(side: Side, cells: &[Cell], cell: Cell) -> bool
    ensures { result ≡ ends_at side cells.now cell }
{
    for other in cells {
        if is_end(side, cell, *other) {
            return true;
        }
    }
    false
}
