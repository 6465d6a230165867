//! Counts a game, and a collection, in one thread.
#![tactic(auto)]

mod collections;
mod counting;
mod counts;
mod dictionaries;
mod gathering;
mod replays;
mod tallies;
mod walkers;

pub use collections::count_plain;
pub use tallies::{Tally, tally_plain};
