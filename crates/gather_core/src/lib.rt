//! Makes a dictionary of what workers count by words (the codes of patterns), and gives its
//! patterns numbers in a table.
#![tactic(auto)]

// what one worker has counted
mod rows;
mod word_shares;

// patterns get numbers
mod marking;
mod numbering;

// the dictionary of what all have counted
mod gathering_words;
pub mod laws;
mod taking;

pub use gathering_words::{GatheredWords, gather_words};
pub use marking::{key_of, mark_first};
pub use numbering::number_entries;
pub use rows::Row;
pub use word_shares::WordShare;
