//! Collections of any number and size, counted in parts (texts of games that are counted together).
#![tactic(auto)]

mod ahead;
mod counting;
mod faults;
mod filling;
mod plans;
mod runs;
mod spills;
mod texts;

pub use faults::{PartsFault, status_of};
pub use plans::Plan;
pub use runs::run_tally;
pub use spills::Spills;
pub use texts::Texts;
