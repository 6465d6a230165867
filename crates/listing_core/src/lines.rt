//! The lines of a listing: what each says of a tree.
use go_board::Size;
use go_record::RecordFault;

/// What a tree is, by its record.
#[derive(Clone, Copy, Debug, PartialEq, Eq)]
pub enum What {
    /// A game of Go: its board, how many moves and passes it has, and how many of the moves are
    /// onto empty points.
    Game {
        size: Size,
        moves: usize,
        occasions: usize,
    },
    /// A tree of another game.
    Other,
    /// A tree of Go whose record has this fault.
    Refused(RecordFault),
}

/// What a listing says of a tree of a collection.
#[derive(Clone, Copy, Debug, PartialEq, Eq)]
pub struct Line {
    /// The number of the game among the collection's games, from 0; None if the tree is no game.
    pub number: Option<u64>,
    /// The byte index in the whole input, from 0, of the parenthesis with which the tree begins.
    pub from: usize,
    /// The byte index after the parenthesis with which the tree ends.
    pub to: usize,
    /// What the tree is.
    pub what: What,
}
