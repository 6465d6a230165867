//! Sources of entries (patterns with their counts), which are taken one after another, and why the
//! next entry may not come.
use shape_dict::Entry;

/// Why the next entry of a join was not returned.
#[derive(Clone, Copy, Debug, PartialEq, Eq)]
pub enum NextFault {
    /// A sum is over 2^64 - 1.
    Overflow,
    /// A read of the dictionary of this number, from 1, failed, or the bytes read are not
    /// well-formed, or a word is outside of the range of words that was read.
    Read(usize),
    /// What was read does not fit what was read before.
    Changed,
    /// Memory was refused.
    Memory,
}

/// A source of entries that come one after another, as the lines of a dictionary do.
pub trait Entries: Drop {
    ghost use Rattle.std.specs.Prelude.{List, MatchResult, IfOk};
    ghost use Rattle.shape_dict.specs.declared.entries.Entry.{Entry as One};
    ghost use Rattle.merge_core.specs.Entries.{IsNext, IsNextFault, WasNext};

    /// For contracts: whether the list has exactly the entries that are still to come.
    ghost yields: { Self → List One → Type 0 };

    /// For contracts: what holds if the entries of the list come from here on, and then the end.
    ghost came: { Self → List One → Type 0 };

    /// Returns the next entry, or None at the end.
    ///
    /// # Errors
    ///
    /// `Overflow` if the counts of an entry that is still to come are too large; `Read` if reading
    /// failed, or what was read is not well-formed. After an error a further call may return
    /// anything.
    fn next_entry(&mut self) -> Result<Option<Entry>, NextFault>
        ensures next { (entries : List One) → yields self.old entries
            → MatchResult result (IsNext (yields self.new) entries) (IsNextFault entries) }
        ensures came { IfOk result (WasNext (came self.old) (came self.new)) };
}
