//! Threads at one table, and worlds (models in which several callers of a table take steps in
//! turn), tried from outside.
#![tactic(auto)]

#[cfg(test)]
mod faults;
#[cfg(test)]
mod tables;
#[cfg(test)]
mod worlds;
