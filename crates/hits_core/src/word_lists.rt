//! The canonical words (the numbers of patterns, in hexadecimal) with which the lines of a list
//! begin.
ghost use Rattle.std.specs.Prelude.{◌≡◌, ◌≢◌, ◌<◌, ℕ, [], length, position, MatchBool, IfOk, IfErr, IfSome, IfNone};
ghost use Rattle.hits_core.specs.WordLists.{is_line_feed, first_line, other_lines, IsSkipped};
ghost use Rattle.hits_core.specs.WordLists.{HasWord, AreWordsOf};
ghost use Rattle.hits_core.specs.Inner.WordLists.{IsListFault};

use shape_core::{Shape, Word};
use shape_dict::word_bits;
use std::alloc::{AllocFailed, Global};

/// Why a list of words was not read.
#[derive(Clone, Copy)]
pub(crate) enum ListFault {
    /// The line of this number, from 1, does not begin with a word.
    BadLine(u64),
    /// Memory was refused.
    Memory,
}

impl<T: Drop> From<AllocFailed<T>> for ListFault {
    ghost use Rattle.hits_core.specs.declared.word_lists.ListFault.TheVariants as list_fault;

    ghost from_gives = { λ _ fault. fault ≡ list_fault.Memory };

    fn from(_: AllocFailed<T>) -> ListFault {
        ListFault::Memory
    }
}

/// Whether `rest` may follow a word in its line: it is empty, or begins with a space.
fn is_skipped(rest: &[u8]) -> bool
    ensures { MatchBool result (IsSkipped rest.now) (IsSkipped rest.now → ⊥) }
{
    match rest {
        [] => true,
        [byte, ..] => *byte == b' ',
    }
}

/// Returns the canonical word that `line` begins with. None if it does not begin with one, or if a
/// byte other than a space follows.
fn word_of(line: &[u8]) -> Option<Shape>
    ensures found { IfSome result (HasWord line.now) }
    ensures only { IfNone result ((word : ℕ) → HasWord line.now word → ⊥) }
{
    let (bits, rest) = word_bits(line)?;
    if !is_skipped(rest) {
        return None;
    }
    Shape::of_word(Word::new(bits)?)
}

/// Splits bytes into the first line, without its line feed, and what follows that.
fn split_line(bytes: &[u8]) -> (&[u8], &[u8])
    requires { bytes.now ≢ [] }
    ensures line { result.0.now ≡ first_line bytes.now }
    ensures others { result.1.now ≡ other_lines bytes.now }
    ensures fewer { length result.1.now < length bytes.now }
{
    match line_end(bytes) {
        Some(at) => (&bytes[..at], &bytes[at + 1..]),
        None => (bytes, &bytes[bytes.len()..]),
    }
}

/// Returns the byte index of the first line feed, or None if there is none.
fn line_end(bytes: &[u8]) -> Option<usize>
    ensures { result ≡ position is_line_feed bytes.now }
{
    bytes.iter().position(|byte| *byte == b'\n')
}

/// Returns the canonical word that each line begins with, in the order of the lines. If a line
/// begins with none, the error is `BadLine` with the number of the first such line, from 1;
/// `Memory` if memory was refused.
pub(crate) fn words_of(alloc: Global, bytes: &[u8]) -> Result<Vec<Shape>, ListFault>
    ensures words { IfOk result (λ words. AreWordsOf bytes.now words.items) }
    ensures fault { IfErr result (IsListFault bytes.now) }
{
    let mut words = Vec::new(alloc);
    let mut rest = bytes;
    while !rest.is_empty() {
        let (line, others) = split_line(rest);
        let Some(word) = word_of(line) else {
            return Err(ListFault::BadLine(words.len() as u64 + 1));
        };
        words.push(word)?;
        rest = others;
    }
    Ok(words)
}
