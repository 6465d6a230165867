//! The command line of `shapes`: its definition for `clap`, and the task that its words ask for.
#![tactic(auto)]

mod commands;
mod words;

pub use words::{Task, read_arguments};
