//! The options of a listing of an input's trees.
use crate::conditions::Condition;

/// What is written of each tree that is chosen.
#[derive(Clone, Copy, Debug, PartialEq, Eq)]
pub enum Form {
    /// A line of words.
    Lines,
    /// A line of columns with tabs between them, among them who played, when, and how it ended.
    Columns,
    /// The tree itself, as it stands in the input, and a line feed.
    Trees,
}

/// The options of a listing of an input's trees: which trees are chosen, what is written of each,
/// which number the first game has, and whether each line names the file.
#[derive(Clone, Copy, Debug)]
pub struct Asked<'a> {
    /// What is written of each tree that is chosen.
    pub form: Form,
    /// The conditions that a game has to meet to be chosen. If there are none, all trees are
    /// listed; in the form `Trees`, all games are written and no other trees.
    pub conditions: &'a [Condition<'a>],
    /// The number that the input's first game has.
    pub first: u64,
    /// The name of the input's file, with which each line is to end; None if it is to have no name.
    pub name: Option<&'a str>,
}
