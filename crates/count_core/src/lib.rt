//! The engine of `shapes count`, apart from the other engines because only it needs a harvest (a
//! count by several threads).
#![tactic(auto)]

mod counts;

pub use counts::run_count;
