//! Dictionaries read off the front of bytes.
ghost use Rattle.std.specs.Prelude.{◌≡◌, ◌++◌, ◌∷◌, [], ◌<◌, ◌≤◌, ℕ, List, length};
ghost use Rattle.std.specs.Prelude.{IfOk, IfErr, take};
ghost use Rattle.shape_dict.specs.Text.{header_text};
ghost use Rattle.shape_dict.specs.Reading.{IsHeader, BeginsWith, HasAllLines, IsFirstFault};
ghost use Rattle.shape_dict.specs.Reading.{IsFrontFault, IsTextFault, IsTextOf, lines_after};
ghost use Rattle.shape_dict.specs.Reading.{last_shape};
ghost use Rattle.shape_dict.specs.declared.faults.DictFault.TheVariants as fault;
ghost use Rattle.sgf_core.specs.Limit.{most_bytes};

use crate::dictionaries::Dictionary;
use crate::entries::Entry;
use crate::entry_lines::read_entry;
use crate::faults::DictFault;
use crate::headers::{Header, count_lines, read_header};
use crate::joining::push;
use crate::totals::have_totals;
use sgf_core::MOST_BYTES;
use shape_core::Shape;
use std::alloc::Global;

/// The shape of the last entry, if there is one.
fn last_shape(entries: &[Entry]) -> Option<Shape>
    ensures { result ≡ last_shape entries.now }
{
    if entries.is_empty() {
        return None;
    }
    Some(entries[entries.len() - 1].shape)
}

/// Reads the line that follows those of `entries`, and returns its entry and the bytes after it, or
/// what is wrong with the line.
fn next_entry<'a>(
    header: &Header,
    entries: &[Entry],
    bytes: &'a [u8],
) -> Result<(Entry, &'a [u8]), DictFault>
    ensures ok { IfOk result (λ p. (whole : List ℕ)
        → BeginsWith whole header.now entries.now bytes.now
        → length entries.now < lines_after header.now
        → BeginsWith whole header.now (entries.now ++ p.0 ∷ []) p.1.now) }
    ensures fault { IfErr result (λ found. (whole : List ℕ)
        → BeginsWith whole header.now entries.now bytes.now
        → length entries.now < lines_after header.now
        → IsFirstFault whole found) }
{
    read_entry(header, entries.len() as u64, last_shape(entries), bytes)
}

/// Reads all lines after a header, and returns their entries and the bytes after them.
fn read_lines<'a>(
    alloc: Global,
    header: &Header,
    bytes: &'a [u8],
) -> Result<(Vec<Entry>, &'a [u8]), DictFault>
    requires { IsHeader header.now }
    ensures ok { IfOk result (λ p. HasAllLines (header_text header.now ++ bytes.now) header.now
        p.0.items p.1.now) }
    ensures fault { IfErr result (IsFirstFault (header_text header.now ++ bytes.now)) }
{
    let mut entries = Vec::new(alloc);
    let mut left = bytes;
    for _place in 0..count_lines(header) {
        let (entry, rest) = match next_entry(header, entries.as_slice(), left) {
            Ok(next) => next,
            Err(fault) => return Err(fault),
        };
        push(&mut entries, entry)?;
        left = rest;
    }
    Ok((entries, left))
}

/// Reads the text that the bytes begin with, and returns its dictionary and how many bytes the text
/// has.
fn front_of(alloc: Global, bytes: &[u8]) -> Result<(Dictionary, usize), DictFault>
    ensures found { IfOk result (λ p. (p.1 ≤ length bytes.now) × IsTextOf p.0 (take p.1 bytes.now)
        × (length bytes.now ≤ most_bytes)) }
    ensures fault { IfErr result (IsFrontFault bytes.now) }
    ensures large { most_bytes < length bytes.now → IfErr result (λ found. found ≡ fault.TooLarge) }
{
    if bytes.len() > MOST_BYTES {
        return Err(DictFault::TooLarge);
    }
    let Some((header, rest)) = read_header(bytes) else {
        return Err(DictFault::BadHeader);
    };
    let (entries, left) = match read_lines(alloc, &header, rest) {
        Ok(lines) => lines,
        Err(fault) => return Err(fault),
    };
    if !have_totals(&header, entries.as_slice()) {
        return Err(DictFault::WrongTotals);
    }
    let counts = header.diamonds.is_some();
    let dictionary = Dictionary::new(header.games, header.moves, entries, counts);
    Ok((dictionary, bytes.len() - left.len()))
}

/// Reads all the bytes as the text of one dictionary. `BadLine` if bytes follow the text.
fn read_whole(alloc: Global, bytes: &[u8]) -> Result<Dictionary, DictFault>
    ensures found { IfOk result (λ d. IsTextOf d bytes.now × (length bytes.now ≤ most_bytes)) }
    ensures fault { IfErr result (IsTextFault bytes.now) }
    ensures large { most_bytes < length bytes.now → IfErr result (λ found. found ≡ fault.TooLarge) }
{
    let (dictionary, length) = front_of(alloc, bytes)?;
    if length < bytes.len() {
        return Err(DictFault::BadLine(dictionary.entries().len() as u64 + 2));
    }
    Ok(dictionary)
}

impl Dictionary {
    ghost use Rattle.std.specs.Prelude.{◌≡◌, ◌<◌, ◌≤◌, ℕ, length, take, IfOk, IfErr};
    ghost use Rattle.std.specs.Prelude.{MatchResult};
    ghost use Rattle.shape_dict.specs.declared.faults.DictFault.TheVariants as fault;
    ghost use Rattle.shape_dict.specs.Contents.{Contents};
    ghost use Rattle.shape_dict.specs.Reading.{IsTextOf, IsTextFault, IsFrontFault};

    /// Reads a dictionary from bytes that are its whole text, which may be any of the three texts.
    /// It takes memory.
    ///
    /// # Errors
    ///
    /// In this order: `TooLarge` if the input has more than 2^28 bytes, `BadHeader` if it does not
    /// begin with a header, and for each line in turn `BadLine` if it is missing, is not
    /// well-formed or can't come there, `NotRising` if its word is not above the one before,
    /// `NotCanonical` if its word is not the least of its images under symmetries and exchange of
    /// colours; then `WrongTotals` if the patterns were not played as often, in all, as there are
    /// moves, or there are moves and no games; and `BadLine` if bytes follow the text. `Memory` if
    /// memory was refused, which is asked for only after a header and a first line without a fault.
    pub fn read(alloc: Global, bytes: &[u8]) -> Result<Dictionary, DictFault>
        ensures found { IfOk result (λ d. IsTextOf d bytes.now × (length bytes.now ≤ most_bytes)) }
        ensures only { (contents : Contents) → IsTextOf contents bytes.now
            → length bytes.now ≤ most_bytes
            → MatchResult result (λ d. d ≡ contents) (λ found. found ≡ fault.Memory) }
        ensures fault { IfErr result (IsTextFault bytes.now) }
        ensures large { most_bytes < length bytes.now
            → IfErr result (λ found. found ≡ fault.TooLarge) }
    {
        read_whole(alloc, bytes)
    }

    /// Reads the text that these bytes begin with, and returns its dictionary and how many bytes
    /// the text has. It takes memory.
    ///
    /// # Errors
    ///
    /// Those of `read`, except that bytes may follow the text.
    pub fn read_front(alloc: Global, bytes: &[u8]) -> Result<(Dictionary, usize), DictFault>
        ensures found { IfOk result (λ p. (p.1 ≤ length bytes.now)
            × IsTextOf p.0 (take p.1 bytes.now) × (length bytes.now ≤ most_bytes)) }
        ensures only { (contents : Contents) → (count : ℕ) → count ≤ length bytes.now
            → IsTextOf contents (take count bytes.now) → length bytes.now ≤ most_bytes
            → MatchResult result (λ p. (p.0 ≡ contents) × (p.1 ≡ count))
            (λ found. found ≡ fault.Memory) }
        ensures fault { IfErr result (IsFrontFault bytes.now) }
        ensures large { most_bytes < length bytes.now
            → IfErr result (λ found. found ≡ fault.TooLarge) }
    {
        front_of(alloc, bytes)
    }
}
