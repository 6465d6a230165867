//! The queue that hands the games of a collection to workers as jobs. No thread is started here.
#![tactic(auto)]

mod items;
mod knowledge;
pub mod laws;
mod queues;

pub use game_core::{Games, Job};
pub use items::Item;
pub use knowledge::{Jobs, Seat};
pub use queues::{Endpoint, new_queue};
