//! What can go wrong in reading games.
use sgf_core::SgfFault;
use thiserror::Error;

/// Why no next game was read.
#[derive(Clone, Copy, Debug, PartialEq, Eq, Error)]
pub enum GamesFault {
    /// The input has this fault: it is too large, or a tree has a fault of syntax.
    #[error("{0}")]
    Sgf(SgfFault),
    /// Memory was refused.
    #[error("F6 no memory")]
    Memory,
}
