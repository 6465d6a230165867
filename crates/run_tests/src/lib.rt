//! Harvests (counts of a collection by several threads), and the texts of faults that no program
//! prints, tried from outside.
#![tactic(auto)]

#[cfg(test)]
mod faults;
#[cfg(test)]
mod gates;
#[cfg(test)]
mod harvests;
