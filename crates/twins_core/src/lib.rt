//! Twins: games whose board, setup and moves an earlier game has.
#![tactic(auto)]

// a game, and where it is
mod codes;
mod seats;

// the games so far
mod lines;
mod twins;

// the games of an input
mod reading;
mod runs;

pub use runs::run_twins;
pub use twins::Twins;
