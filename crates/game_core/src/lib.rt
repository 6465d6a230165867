//! The games of a collection, read one after another.
#![tactic(auto)]

mod faults;
mod games;
mod jobs;
mod laws;
mod reports;

pub use faults::GamesFault;
pub use games::Games;
pub use jobs::Job;
pub use laws::a_number_is_of_one_game;
pub use reports::Report;
