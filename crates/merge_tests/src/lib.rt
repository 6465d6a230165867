//! Dictionaries read line by line, and their joins, tried from outside.
#![tactic(auto)]

#[cfg(test)]
mod known;
#[cfg(test)]
mod merges;
#[cfg(test)]
mod readers;
#[cfg(test)]
mod streams;
