//! A dictionary's text of any size, read line by line from a reader, with a block of it in memory.
#![tactic(auto)]

mod blocks;
mod faults;
mod lines;
mod progress;
mod rows;
mod standing;
mod steps;

pub use faults::StreamFault;
pub use lines::Lines;
pub use progress::Progress;
pub use rows::read_rows;
pub use standing::Standing;
