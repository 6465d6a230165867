//! What is in a collection: a line for each of its trees, or the trees that are chosen.
#![tactic(auto)]

// what is asked for
mod asked;
mod conditions;
mod keys;

// what is written of a tree
mod choosing;
mod columns;
mod lines;
mod occasions;
mod simple;
mod writing;

// the trees of an input
mod laws;
mod listings;
mod runs;
mod trees;
mod wants;

pub use asked::{Asked, Form};
pub use conditions::{Condition, condition_of};
pub use keys::{Key, key_text};
pub use laws::{cuts_are_read_back, listings_agree_with_counts};
pub use lines::{Line, What};
pub use listings::{Listed, Summary, listed_by};
pub use runs::{MOST_FIRST, run_listing};
pub use wants::Want;
