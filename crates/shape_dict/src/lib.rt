//! Dictionaries of patterns: read, written, searched and joined, in three text formats.
#![tactic(auto)]

mod dictionaries;
mod entries;
mod entry_lines;
mod faults;
mod finding;
mod first_games;
mod headers;
mod hexadecimals;
mod joining;
mod kinds;
mod laws;
mod lines;
mod numbers;
mod parts;
mod pieces;
mod quick;
mod reading;
mod sorting;
mod texts;
mod totals;
mod writing;

pub use dictionaries::Dictionary;
pub use entries::{Entry, Text};
pub use entry_lines::read_entry;
pub use faults::DictFault;
pub use first_games::FirstGame;
pub use headers::{Header, count_lines, read_header};
pub use hexadecimals::word_bits;
pub use laws::{texts_are_distinct, texts_have_one_fault};
pub use pieces::PieceDictionary;
pub use quick::quick_entry;
pub use sorting::put_in_order;
pub use texts::push_header;
pub use writing::{push_line, push_number, push_word};
