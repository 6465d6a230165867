//! What the programs' command lines share: definitions for `clap`, what a line of words asks for,
//! and the values that it gives.
#![tactic(auto)]

// what is defined for `clap`
mod arguments;
mod programs;

// what `clap` answers to a line, and what a program makes of the answer
mod from_arguments;
mod lines;

// the values that a line gives
mod patterns;
mod texts;
mod values;

// what is said of a file that a value names
mod unread;

pub use arguments::{
    colour_argument, diamond_argument, files_argument, flag_argument, glyphs_argument,
    names_argument, option_argument, text_argument, workers_argument,
};
pub use from_arguments::{FromArguments, read_arguments};
pub use lines::{Line, read_line};
pub use patterns::spelled_pattern;
pub use programs::{command_named, program_named, with_argument, with_command};
pub use texts::text_of;
pub use unread::why_unread;
pub use values::{choice, kind_of, number, optional_number, small_number, word_of, words_of};
