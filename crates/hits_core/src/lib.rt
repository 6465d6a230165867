//! In which games of a collection a pattern is, and where.
#![tactic(auto)]

mod file_names;
mod finding;
mod found;
mod games;
mod hits;
mod laws;
mod lists;
mod looking;
mod parts;
mod playing;
mod reading;
mod results;
mod runs;
mod searches;
mod sgf;
mod wanted;
mod watching;
mod word_lists;
mod writing;

pub use file_names::file_name;
pub use games::Game;
pub use hits::Hit;
pub use laws::hits_agree_with_counts;
pub use lists::{WordsFault, read_wanted, status_of};
pub use results::Results;
pub use runs::run_hits;
pub use searches::{Search, Shown, Sought, Spelling};
pub use sgf::sgf_of;
pub use wanted::Wanted;
