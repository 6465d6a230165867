//! The actions of a game's record: points set (stones put or removed without a move), stones played
//! and passes.
use go_board::{Colour, Point, Stone};

/// One action of a game's record.
#[derive(Clone, Copy, Debug, PartialEq, Eq)]
pub enum Action {
    /// Every point of a rectangle gets this stone, or is emptied, and nothing is captured. The
    /// corner `low` has the rectangle's least column and row, `high` its greatest; both are part of
    /// it.
    Set {
        low: Point,
        high: Point,
        stone: Stone,
    },
    /// A stone is played.
    Move {
        colour: Colour,
        at: Point,
    },
    /// A player passes.
    Pass {
        colour: Colour,
    },
}
