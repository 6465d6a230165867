//! What a count of a collection returns.
use game_core::Report;
use shape_dict::PieceDictionary;

/// What a count of a collection returns: its dictionary, and the report on its trees.
#[derive(Drop)]
pub struct Counted {
    /// The dictionary of its games.
    pub dictionary: PieceDictionary,
    /// How many of its trees are games of Go, are of other games, and are refused.
    pub report: Report,
}
