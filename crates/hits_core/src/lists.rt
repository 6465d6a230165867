//! The patterns that a list of canonical words (the numbers of patterns, in hexadecimal) asks for,
//! and why such a list may not be read.
ghost use Rattle.std.specs.Prelude.{◌≡◌, IfOk, IfErr};
ghost use Rattle.hits_core.specs.Lists.{HasReadList, IsWantedOf, IsWantedFault, status_of};

use crate::wanted::Wanted;
use crate::word_lists::{ListFault, words_of};
use engine_core::{RunFault, read_input};
use sgf_core::MOST_BYTES;
use std::alloc::Global;
use std::io::Read;
use thiserror::Error;

/// Why a list of words was not read.
#[derive(Clone, Copy, Debug, PartialEq, Eq, Error)]
pub enum WordsFault {
    /// The line of this number, from 1, does not begin with a canonical word.
    #[error("L1 no word in line {0}")]
    BadLine(u64),
    /// The list has more than 2^28 bytes.
    #[error("L2 words too large")]
    TooLarge,
    /// A read of the list failed, or it could not be opened.
    #[error("L3 words not read")]
    Unread,
    /// Memory was refused.
    #[error("M1 no memory")]
    Memory,
}

/// Reads a list of words from `reader`, and returns the patterns that it asks for. Each line begins
/// with a pattern's canonical word in 13 hexadecimal digits, as a line of a dictionary does; a
/// space and anything else may follow. Squares and diamonds may be mixed, and a word may come more
/// than once. It reads up to the reader's end, or 2^28 + 1 bytes and no more, unless the reader
/// fails or memory is refused. It takes memory for the list and its words.
///
/// # Errors
///
/// `TooLarge` if the list has more than 2^28 bytes, else `BadLine` with the first line that does
/// not begin with a word; `Unread` if the reader failed, `Memory` if memory was refused.
pub fn read_wanted<R: Read>(alloc: Global, reader: &mut R) -> Result<Wanted, WordsFault>
    ensures read { HasReadList result (R.remaining reader.old) (R.remaining reader.new) }
    ensures words { IfOk result (IsWantedOf (R.remaining reader.old)) }
    ensures fault { IfErr result (IsWantedFault (R.remaining reader.old)) }
{
    let input = match read_input(alloc, reader) {
        Ok(input) => input,
        Err(RunFault::Read) => return Err(WordsFault::Unread),
        Err(_) => return Err(WordsFault::Memory),
    };
    if input.len() > MOST_BYTES {
        return Err(WordsFault::TooLarge);
    }
    match words_of(alloc, &input) {
        Ok(words) => Ok(Wanted::new(words)),
        Err(ListFault::BadLine(line)) => Err(WordsFault::BadLine(line)),
        Err(ListFault::Memory) => Err(WordsFault::Memory),
    }
}

/// Returns the exit status for a fault: 2 if the list is refused, 6 if it was not read, and 5 if
/// memory was refused.
pub fn status_of(fault: &WordsFault) -> u8
    ensures { result ≡ status_of fault.now }
{
    match fault {
        WordsFault::BadLine(_) | WordsFault::TooLarge => 2,
        WordsFault::Unread => 6,
        WordsFault::Memory => 5,
    }
}
