//! Several workers count a collection, game by game, over a hash table that numbers patterns by its
//! slots, and that the caller made.
//!
//! Faults are reported in this order: out of memory, of the thread that reads or of any worker;
//! faults of the input; among the games that were refused `Full` of the least game, then
//! `Stranger`; and last those of merging all shares (what each worker has counted). `Overflow` is
//! never reported: no count of an input is too large.
#![tactic(auto)]

mod harvesting;
mod parting;
mod reading;
mod taking;
mod threads;
mod workers;
mod working;

pub use harvesting::harvest_on;
pub use workers::{Returned, Worker, work};
pub use working::Worked;
