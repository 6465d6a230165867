//! A hash table that gives numbers (indices of slots) to keys and is shared by threads: keys are
//! never removed, it takes no lock and never retries a step.
#![tactic(auto)]

mod batches;
mod entries;
mod faults;
pub mod laws;
mod passes;
mod steps;
mod tables;
mod views;

pub use entries::Happened;
pub use faults::SlotFault;
pub use passes::Pass;
pub use tables::SlotTable;
