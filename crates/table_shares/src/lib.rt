//! Shares: what workers have counted over a shared table of numbers, how the shares become a
//! dictionary, and why a table was full.
#![tactic(auto)]

// what one worker has counted
mod entering;
mod ledgers;
mod rows;
mod share_rows;
mod shares;
mod workings;

// what is wrong with shares
mod agreeing;
mod confirming;
mod covering;
mod leasts;
mod numbers;
mod standing;
mod visiting;

// the dictionary of all shares' rows
mod adding_up;
mod gathering;
pub mod laws;
mod totals;

pub use confirming::confirm_full;
pub use gather_core::Row;
pub use gathering::gather;
pub use share_rows::ShareRows;
pub use shares::Share;
