//! Tests of shares (what one worker has counted) by their public functions.
#![tactic(auto)]

#[cfg(test)]
mod games;
#[cfg(test)]
mod rows;
#[cfg(test)]
mod shares;
