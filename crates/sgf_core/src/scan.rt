//! Where white space, letters and a value end.
ghost use Rattle.std.specs.Prelude.{◌≡◌, ◌≤◌, ◌<◌, ℕ, List, IsTrue, Some, MatchOption, false};
ghost use Rattle.std.specs.Prelude.{length, slice_index, slice_range, drop, ◌++◌};
ghost use Rattle.std.specs.List.{list_all};
ghost use Rattle.sgf_core.specs.Bytes.{is_white, is_letter, close_bracket};
ghost use Rattle.sgf_core.specs.Grammar.{is_value_text};

use crate::bytes::{is_letter, is_white};

/// Returns the index of the first byte from `from` on that is not white space, or the length of
/// `bytes` if there is none.
pub(crate) fn white_end(bytes: &[u8], from: usize) -> usize
    requires { from ≤ length bytes.now }
    ensures within { (from ≤ result) × (result ≤ length bytes.now) }
    ensures white { IsTrue (list_all is_white (slice_range bytes.now from result)) }
    ensures ended { result < length bytes.now → is_white (slice_index bytes.now result) ≡ false }
{
    let mut place = from;
    while place < bytes.len() && is_white(bytes[place]) {
        place += 1;
    }
    place
}

/// Returns the index of the first byte from `from` on that is no letter, or the length of `bytes`
/// if there is none.
pub(crate) fn letters_end(bytes: &[u8], from: usize) -> usize
    requires { from ≤ length bytes.now }
    ensures within { (from ≤ result) × (result ≤ length bytes.now) }
    ensures letters { IsTrue (list_all is_letter (slice_range bytes.now from result)) }
    ensures ended { result < length bytes.now → is_letter (slice_index bytes.now result) ≡ false }
{
    let mut place = from;
    while place < bytes.len() && is_letter(bytes[place]) {
        place += 1;
    }
    place
}

/// Returns the index of the closing bracket that ends the value whose first byte is at `from`, or
/// None if none ends it. A bracket that a backslash escapes ends no value.
pub(crate) fn value_end(bytes: &[u8], from: usize) -> Option<usize>
    requires { from ≤ length bytes.now }
    ensures { MatchOption result
        ((more : List ℕ) × IsTrue (is_value_text (drop from bytes.now ++ more)))
        (λ end. (from ≤ end) × (end < length bytes.now)
        × (slice_index bytes.now end ≡ close_bracket)
        × IsTrue (is_value_text (slice_range bytes.now from end))) }
{
    let mut escaped = false;
    for place in from..bytes.len() {
        let byte = bytes[place];
        if byte == b']' && !escaped {
            return Some(place);
        }
        escaped = byte == b'\\' && !escaped;
    }
    None
}
