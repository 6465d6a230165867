//! The keys of patterns, and lookups in dictionaries, for programs in other languages.
#![tactic(auto)]

mod around;
mod canonical;
mod codes;
mod colours;
mod entries;
mod finding;
mod glyphs;
mod reading;
mod statuses;

pub use entries::{ShapesEntry, ShapesHeader};
pub use statuses::Status;
