//! Reads a collection of game trees in SGF FF[4]: bytes to trees, and a tree's main line.
#![tactic(auto)]

mod bytes;
mod faults;
mod laws;
mod lines;
mod marks;
mod parse;
mod property;
mod reader;
mod scan;
mod written;

pub use bytes::is_white;
pub use faults::SgfFault;
pub use laws::{few_values, one_answer, one_fault, one_next_tree};
pub use lines::{MainLine, Node, Props};
pub use marks::{Mark, Prop, Value};
pub use reader::{MOST_BYTES, Trees};
pub use written::Tree;
