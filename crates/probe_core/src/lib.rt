//! A hash table that gives numbers (indices of slots) to keys: which slots a call probes, what it
//! does at each, and a simulation of any number of callers at one table.
#![tactic(auto)]

mod calls;
mod capacities;
mod events;
mod faults;
mod halls;
mod keys;
mod laws;
mod orders;
mod probes;
mod solo;
mod steps;
mod worlds;

pub use calls::{Answer, Call, Want};
pub use capacities::Capacity;
pub use events::{Event, Finished};
pub use faults::ProbeFault;
pub use keys::Key;
pub use laws::{
    keys_have_one_number, legal_histories_go_on, longer_histories_keep_numbers,
    steps_tell_of_the_key, words_are_of_what_they_show,
};
pub use orders::{Linear, OddRuns, OddStep, ProbeOrder};
pub use probes::{Probe, Turn};
pub use solo::SoloTable;
pub use worlds::World;
