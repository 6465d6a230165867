//! What can go wrong in a count by several workers.
#![tactic(auto)]

mod faults;

pub use faults::HarvestFault;
