//! Reads pieces: the lines that one dictionary has in a range of words (the numbers of patterns).
ghost use Rattle.std.specs.Prelude.{◌≡◌, ◌≤◌, ◌<◌, ◌+◌, ◌^◌, ℕ, List, Some, IfOk, IsTrue, length};
ghost use Rattle.std.specs.Io.KnownBytes.{Consumes};
ghost use Rattle.merge_core.specs.Inner.Ranges.{IsWithin, IsPiece, Piece};

use crate::cuts::{Cut, header_at, place_at};
use crate::entries::NextFault;
use crate::sources::Sources;
use shape_dict::{Entry, Header};
use std::alloc::Global;
use std::io::Read;
use stream_core::read_rows;

/// A range of words: the two cuts at which it begins and ends (each a word, and a byte index in
/// each dictionary), and the headers of the dictionaries whose lines lie between them.
#[derive(Clone, Copy)]
pub(crate) struct Range<'a> {
    pub(crate) headers: &'a [Header],
    pub(crate) low: &'a Cut,
    pub(crate) high: &'a Cut,
}

/// Overwrites the whole vector with bytes from a reader. Returns false if the reader failed or
/// ended too early.
fn fill<R: Read>(reader: &mut R, bytes: &mut Vec<u8>) -> bool
    ensures size { length bytes.new.items ≡ length bytes.old.items }
    ensures full { IsTrue result → Consumes (R.remaining reader.old) (R.remaining reader.new)
        bytes.new.items }
{
    reader.read_exact(bytes).is_ok()
}

/// Reads the bytes of dictionary `n`, counted from 0, from byte index `from` up to `to`, which is
/// not included. `Changed` if `to` is below `from`, `Memory` if memory was refused, and `Read` if
/// the dictionary can't be opened or read, or has fewer bytes.
pub(crate) fn read_bytes<S: Sources>(
    alloc: Global,
    sources: &S,
    n: usize,
    from: usize,
    to: usize,
) -> Result<Vec<u8>, NextFault>
    requires few { n + 1 < 2 ^ 64 }
    requires within { n < S.number sources.now }
    ensures { IfOk result (λ bytes. (text : List ℕ) → S.bytes sources.now n ≡ Some text
        → IsWithin text from to bytes.items) }
{
    if to < from {
        return Err(NextFault::Changed);
    }
    let Ok(mut reader) = sources.open_at(n, from) else {
        return Err(NextFault::Read(n + 1));
    };
    let Ok(mut bytes) = vec![in alloc; 0u8; to - from] else {
        return Err(NextFault::Memory);
    };
    if !fill(&mut reader, &mut bytes) {
        return Err(NextFault::Read(n + 1));
    }
    Ok(bytes)
}

/// Whether dictionary `n`, counted from 0, has no byte from byte index `place` on. False also if it
/// can't be read.
pub(crate) fn ends_at<S: Sources>(sources: &S, n: usize, place: usize) -> bool
    requires within { n < S.number sources.now }
    ensures { IsTrue result → (text : List ℕ) → S.bytes sources.now n ≡ Some text
        → length text ≤ place }
{
    let Ok(mut reader) = sources.open_at(n, place) else {
        return false;
    };
    let mut byte = [0u8; 1];
    let Ok(count) = reader.read(&mut byte) else {
        return false;
    };
    count == 0
}

/// Reads the entries that dictionary `n`, counted from 0, has in a range of words.
///
/// # Errors
///
/// `Memory` if memory was refused, `Changed` if the range ends before it begins, and `Read` if a
/// read failed, or if a line is not well-formed, outside of the range or with a number of more than
/// 18 digits, or if the range has no header or byte index of this dictionary.
pub(crate) fn piece_of<S: Sources>(
    alloc: Global,
    sources: &S,
    range: Range<'_>,
    n: usize,
) -> Result<Vec<Entry>, NextFault>
    requires few { n + 1 < 2 ^ 64 }
    requires within { n < S.number sources.now }
    ensures { IfOk result (λ entries. (p : Piece) × IsPiece (S.bytes sources.now)
        range.entry.headers.now range.entry.low.now range.entry.high.now n p × (p.entries ≡ entries.items)) }
{
    let fault = NextFault::Read(n + 1);
    let Some(header) = header_at(range.headers, n) else {
        return Err(fault);
    };
    let Some(from) = place_at(range.low, n) else {
        return Err(fault);
    };
    let Some(to) = place_at(range.high, n) else {
        return Err(fault);
    };
    let bytes = match read_bytes(alloc, sources, n, from, to) {
        Ok(bytes) => bytes,
        Err(fault) => return Err(fault),
    };
    match read_rows(alloc, &header, range.low.word, range.high.word, &bytes) {
        Ok(Some(entries)) => Ok(entries),
        Ok(None) => Err(fault),
        Err(_) => Err(NextFault::Memory),
    }
}
