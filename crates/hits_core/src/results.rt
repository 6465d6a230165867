//! What a search finds in an input.
use crate::games::Game;
use crate::hits::Hit;
use engine_core::Outcome;
use game_core::Report;

/// What a search has found in an input.
#[derive(Drop)]
pub struct Results {
    /// `Done` if there is a hit, and `NotFound` if there is none.
    pub outcome: Outcome,
    /// How many of the input's trees are games, of other games, and refused.
    pub report: Report,
    /// The games of the input, in order.
    pub games: Vec<Game>,
    /// The first hits, at most as many as are asked for.
    pub hits: Vec<Hit>,
}
