//! Positions of Go, and moves with captures.
#![tactic(auto)]

mod around;
mod boards;
mod faults;
mod groups;
mod laws;
mod point_sets;
mod points;
mod replays;

pub use boards::{Board, Played};
pub use faults::BoardFault;
pub use laws::moves_have_one_result;
pub use points::{Colour, Point, Size, Stone};
pub use replays::Replayable;
