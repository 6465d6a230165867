//! Entries of patterns in lists by ranges (of words, or of places in a table), regrouped, added up
//! range by range, and put in order.
#![tactic(auto)]

mod cuts;
mod lists;
mod ordering;
mod pieces;
mod place_lists;
pub mod places;
mod ranges;
mod record_lists;
mod records;
mod sums;

pub use cuts::{Cuts, WORD_RANGES};
pub use lists::Lists;
pub use ordering::in_order;
pub use pieces::pieces_in_order;
pub use place_lists::{PLACE_LISTS, PlaceLists};
pub use ranges::{Range, ranges_of};
pub use sums::Sums;
