//! What all programs share to read, write and report faults, and the engines of `board`, `find` and
//! `join`: each reads its input whole, makes one text of it, and writes that text.
#![tactic(auto)]

// the engines, and the pattern that `find` is asked for
mod boards;
mod finds;
mod joins;
mod patterns;

// the joins that `join` makes
mod halves;

// the text of a board
mod text;

// what they read and write through, and what goes wrong
mod args;
mod faults;
mod input;
mod output;

pub use args::own_words;
pub use boards::{Outcome, run_board};
pub use faults::{RunFault, status_of};
pub use finds::run_find;
pub use input::read_input;
pub use joins::run_join;
pub use output::{write_output, write_parts};
pub use patterns::pattern_of;
