//! Texts of games, joined into one input.
#![tactic(auto)]

mod laws;
mod texts;

pub use laws::{games_come_together, games_of_joined};
pub use texts::{push_text, report_of};
