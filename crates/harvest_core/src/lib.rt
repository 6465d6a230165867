//! Workers count a whole collection, each in a thread of its own.
#![tactic(auto)]

mod gates;
mod gathering;
mod own_tables;
mod reading;
mod threads;
mod workers;

pub use gates::{FreeGate, Gate};
pub use own_tables::{harvest, harvest_all};
