//! The text of a dictionary in parts (bytes of whole lines, part after part), which threads make.
ghost use Rattle.std.specs.Prelude.{◌≡◌, ◌<◌, ◌++◌, [], All, IsOk, IfOk, OnOk};
ghost use Rattle.std.specs.List.{flat_map};
ghost use Rattle.shape_dict.specs.Parts.{joined};
ghost use Rattle.shape_dict.specs.Pieces.{entries_in};
ghost use Rattle.shape_dict.specs.Inner.Parts.{lines_of, bytes_of, AreMade};

use crate::entries::{Entry, Text};
use crate::texts::push_entries;
use std::alloc::{AllocError, Global};
use std::thread;
use std::thread::Threads;

/// A text of this many entries or fewer is one part.
const LEAST: usize = 65_536;

/// Most lines have at most this many bytes.
const LINE: usize = 20;

/// Returns how many of `lists` lists of entries are made into one part of the text: about as many
/// for each of `threads` threads, or all of them if they have `LEAST` entries or fewer together.
fn part_length(lists: usize, entries: usize, threads: usize) -> usize
    ensures { 0 < result }
{
    if entries <= LEAST {
        return lists.max(1);
    }
    lists.div_ceil(threads.max(1)).max(1)
}

/// Returns an empty vector, with capacity for the lines of `entries` entries if they are many: a
/// large vector that grows is copied again and again, which is slow. If so much memory is refused,
/// the vector has no capacity yet, and grows.
fn room_for(alloc: Global, entries: usize) -> Vec<u8>
    ensures { result.items ≡ [] }
{
    if entries < LEAST {
        return Vec::new(alloc);
    }
    match Vec::with_capacity(alloc, entries.saturating_mul(LINE)) {
        Ok(room) => room,
        Err(_) => Vec::new(alloc),
    }
}

/// How many entries the lists have together, or 2^64 - 1 if they are more.
fn entries_of(lists: &[Vec<Entry>]) -> usize {
    let mut entries: usize = 0;
    for list in lists {
        entries = entries.saturating_add(list.len());
    }
    entries
}

/// Returns the lines of the entries of `lists` in the format `text`.
fn lines_part(alloc: Global, text: Text, lists: &[Vec<Entry>]) -> Result<Vec<u8>, AllocError>
    ensures { IfOk result (λ part. part.items ≡ lines_of text (entries_in lists.now)) }
{
    let mut part = room_for(alloc, entries_of(lists));
    for list in lists {
        push_entries(&mut part, text, list.as_slice())?;
    }
    Ok(part)
}

/// Makes the lines of a text for the entries of `lists`, and returns them in parts, in order. At
/// most `threads` threads make them, and the call waits for them. `entries` is how many entries
/// there are. A part is an error if memory for it was refused; the whole result is one if memory
/// for the list of parts was.
pub(crate) fn made_parts<R: Threads + Sync>(
    rt: &R,
    alloc: Global,
    text: Text,
    lists: &[Vec<Entry>],
    entries: usize,
    threads: usize,
) -> Result<Vec<Result<Vec<u8>, AllocError>>, AllocError>
    ensures { IfOk result (λ made. AreMade (lines_of text (entries_in lists.now)) made.items) }
{
    thread::map_chunks(
        rt,
        alloc,
        lists,
        part_length(lists.len(), entries, threads),
        &|_, chunk: &[Vec<Entry>]| lines_part(alloc, text, chunk),
    )
}

/// Appends the parts of `made` to `parts`, up to the first that was refused memory, which is the
/// error.
pub(crate) fn push_made(
    parts: &mut Vec<Vec<u8>>,
    made: Vec<Result<Vec<u8>, AllocError>>,
) -> Result<(), AllocError>
    ensures ok { OnOk result (joined parts.new.items
        ≡ joined parts.old.items ++ flat_map bytes_of made.items) }
    ensures all { OnOk result (All IsOk made.items) }
{
    for part in made {
        parts.push(part?)?;
    }
    Ok(())
}
