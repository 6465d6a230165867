//! What a search asks for, beside its patterns.

/// Which occurrences of a pattern are listed.
#[derive(Clone, Copy, Debug, PartialEq, Eq)]
pub enum Sought {
    /// Each time that it was played: a move onto the empty point in its middle.
    Played,
    /// Each time that it was there: just before a move onto an empty point, each empty point that
    /// had it for the player to move.
    There,
}

/// What the lines of hits show.
#[derive(Clone, Copy, Debug, PartialEq, Eq)]
pub enum Shown {
    /// The game, the move, the point, the colour, and the byte index of the game's tree.
    Places,
    /// The pattern's word, and after it what `Places` shows.
    WordsToo,
}

/// How points are written in the lines.
#[derive(Clone, Copy, Debug, PartialEq, Eq)]
pub enum Spelling {
    /// As SGF has them: the letter of the column, and that of the row from the top.
    Letters,
    /// As boards are labelled: the letters of the column, without I, and the number of the row from
    /// below.
    Coordinates,
}

/// What a search asks for of an input, beside the patterns.
#[derive(Clone, Copy, Debug, PartialEq, Eq)]
pub struct Search<'a> {
    /// Which occurrences of a pattern are listed.
    pub sought: Sought,
    /// How many hits are listed at most, the first of all; None for all.
    pub most: Option<u64>,
    /// What the lines show.
    pub shown: Shown,
    /// How the points in the lines are written.
    pub spelling: Spelling,
    /// The number of the input's first game: games are numbered through all inputs.
    pub first: u64,
    /// The name of the input's file, with which each line ends; None for none.
    pub name: Option<&'a str>,
}
