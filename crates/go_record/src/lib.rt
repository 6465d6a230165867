//! Reads game trees into records of games, and replays records on a board.
#![tactic(auto)]

mod actions;
mod adding;
mod deeds;
mod faults;
mod laws;
mod names;
mod reading;
mod records;
mod replaying;
mod spelling;

pub use actions::Action;
pub use faults::RecordFault;
pub use laws::{few_actions, replays_have_one_result};
pub use reading::read_record;
pub use records::{Kind, Record};
pub use replaying::{apply, replay};
