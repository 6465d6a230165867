//! What a table is asked, what it answers, and the steps (loads and compare-exchanges) of a call.
use crate::keys::Key;

/// What a table is asked about a key.
#[derive(Clone, Copy, Debug, PartialEq, Eq)]
pub enum Call {
    /// Asks for the key's number (the index of its slot); if the key has none, it gets a free one.
    Enter(Key),
    /// Asks for the key's number (the index of its slot), and changes nothing.
    LookUp(Key),
}

/// What a table answers.
#[derive(Clone, Copy, Debug, PartialEq, Eq)]
pub enum Answer {
    /// The key's number: the index of its slot.
    Number(usize),
    /// The key has no number, and some number is free.
    Absent,
    /// The key has no number, and none is free.
    Full,
}

/// The next step of a call: what is to be done to the word of one slot of the table.
#[derive(Clone, Copy, Debug, PartialEq, Eq)]
pub enum Want {
    /// A load of the word of the slot with this index.
    Load(usize),
    /// A compare-exchange of a slot's word, from 0 (a free slot) to `value`.
    Swap {
        /// The index of the slot.
        place: usize,
        /// The value to store: the key plus 1.
        value: u64,
    },
}
