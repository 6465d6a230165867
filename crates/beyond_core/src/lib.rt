//! Tells with which pattern, and in which game, a collection first has more patterns than some
//! number.
#![tactic(auto)]

mod reaching;
mod too_many;

pub use too_many::first_too_many;
