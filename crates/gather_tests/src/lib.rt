//! Dictionaries made of several shares (the counts of one worker each), tried from outside.
#![tactic(auto)]

#[cfg(test)]
mod confirmed;
#[cfg(test)]
mod gathered;
#[cfg(test)]
mod memory;
