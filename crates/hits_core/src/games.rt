//! A game of a collection, with its number and the byte index at which its tree begins.
use go_record::Record;

/// A game, kept until its hits are found.
#[derive(Drop)]
pub struct Game {
    /// The game's number among the collection's games, from 0.
    pub number: u64,
    /// The byte index in the input, from 0, of the parenthesis with which the game's tree begins.
    pub place: usize,
    /// The game's record: the size of its board, and its setup, moves and passes in their order.
    pub recorded: Record,
}
