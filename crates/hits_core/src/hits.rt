//! A hit: a time that a pattern was played, or was there.
use go_board::{Colour, Point};
use shape_core::Shape;

/// A time that a pattern was played, or was there, in a game of a collection. It is played by a
/// move onto its middle. It is there just before any move onto an empty point, if an empty point
/// has it.
#[derive(Clone, Copy, Debug, PartialEq, Eq)]
pub struct Hit {
    /// The number of the game among the collection's games, from 0.
    pub game: u64,
    /// The number of the move in the game, from 1: moves and passes count, setup does not.
    pub number: u64,
    /// The point that has the pattern before that move.
    pub at: Point,
    /// The player who was to move.
    pub mover: Colour,
    /// The byte index in the input, from 0, of the parenthesis with which the game's tree begins.
    pub place: usize,
    /// How many rows the game's board has.
    pub rows: u8,
    /// The pattern's canonical word, which is the same however the pattern is turned or mirrored.
    pub word: Shape,
}
