//! The report on a collection: how many of its trees are games, of other games, or refused.
/// How many trees of a collection are games of Go, are of other games, and have a fault in their
/// record.
#[derive(Clone, Copy, Debug, PartialEq, Eq)]
pub struct Report {
    /// Games: trees of Go whose records have no fault.
    pub games: u64,
    /// Trees of other games. They are skipped.
    pub others: u64,
    /// Trees whose records have a fault. They are skipped.
    pub refused: u64,
}
