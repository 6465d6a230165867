//! What one share, a worker's counts, has for one pattern.
use shape_core::Shape;
use shape_dict::FirstGame;

/// What a share (one worker's counts) has for one pattern: the pattern's number in the table, the
/// pattern, how often it was there and was played, and the least game in which it was there,
/// unknown before any was counted.
#[derive(Clone, Copy, Debug, PartialEq, Eq)]
pub struct Row {
    pub number: usize,
    pub shape: Shape,
    pub there: u64,
    pub played: u64,
    pub first: FirstGame,
}
