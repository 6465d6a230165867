//! Joins dictionaries of any number and size, each read line by line.
#![tactic(auto)]

mod counting;
mod cuts;
mod entries;
mod faults;
mod forms;
mod growing;
mod heads;
mod judged;
mod judging;
mod leaves;
mod measuring;
mod merging;
mod output;
mod pieces;
mod planning;
mod printing;
mod ranges;
mod rounds;
mod runs;
mod sources;
mod surveying;
mod tallies;
mod trees;
mod writing;

pub use entries::{Entries, NextFault};
pub use faults::{MergeFault, status_of};
pub use forms::Form;
pub use runs::run_merge;
pub use sources::Sources;
