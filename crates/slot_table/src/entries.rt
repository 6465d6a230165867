//! What happened at a table: each call with its answer.
use probe_core::{Answer, Call};

/// A call of a table with its answer. Contracts have lists of them, as the table's history. Used in
/// contracts only; no code makes one.
pub enum Happened {
    /// A key was entered or looked up, with the answer.
    Asked(Call, Answer),
    /// A game (a `u64`) was marked at a number (a `usize`, a slot): the slot's least game became
    /// that game if it was less.
    Marked(usize, u64),
    /// The least game marked at a number (a `usize`) was asked for: the answer is that game (a
    /// `u64`), or None if no game was marked there.
    First(usize, Option<u64>),
}
