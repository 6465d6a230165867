//! A block of a reader's bytes, read ahead.
ghost use Rattle.std.specs.Prelude.{◌≡◌, ◌≤◌, ◌<◌, ◌+◌, [], length, take, IfOk, IfErr};
ghost use Rattle.std.specs.Io.KnownBytes.{Consumes, IsAtEnd, Keeps};
ghost use Rattle.stream_core.specs.Inner.Taken.{Taken};
ghost use Rattle.stream_core.specs.declared.faults.StreamFault.TheVariants as fault;

use crate::faults::StreamFault;
use std::alloc::{AllocError, Global};
use std::io::Read;
use std::marker::Model;

/// How many bytes a block has.
const BLOCK: usize = 1 << 16;

/// No line and no header has more bytes than this.
const LONGEST: usize = 1 << 7;

/// A reader, and a block with some of its bytes: those from `start` to `end` are unread.
#[derive(Drop)]
pub(crate) struct Block<R: Read> {
    reader: R,
    bytes: Vec<u8>,
    start: usize,
    end: usize,
    /// Whether the reader has no more bytes.
    ended: bool,
}

impl<R: Read> Model for Block<R> {
    ghost use Rattle.std.specs.Prelude.{take, drop};
    ghost use Rattle.stream_core.specs.Inner.Blocks.{Held, IsBlock};

    ghost Value = { Held };

    ghost view = { λ b. record {
      unread = drop b.start (take b.end b.bytes.items);
      remaining = R.remaining b.reader;
    } };

    ghost invariant = { λ b. IsBlock b.bytes.items b.start b.end b.ended (R.remaining b.reader) };
}

/// Reads once into `room`, and returns how many bytes were read. 0 means the reader's end, unless
/// `room` is empty.
fn read_some<R: Read>(reader: &mut R, room: &mut [u8]) -> Result<usize, StreamFault>
    ensures within { IfOk result (λ count. count ≤ length room.new) }
    ensures taken { IfOk result (λ count. Consumes (R.remaining reader.old)
        (R.remaining reader.new) (take count room.new)) }
    ensures end { IfOk result (λ count. count ≡ 0 → 0 < length room.new
        → IsAtEnd (R.remaining reader.new)) }
    ensures kept { IfErr result (λ found. (found ≡ fault.Read)
        × Keeps (R.remaining reader.old) (R.remaining reader.new)) }
{
    reader.read(room).map_err(|_| StreamFault::Read)
}

/// Reads once into `bytes`, from index `end` on, and returns how many bytes were read. 0 means the
/// reader's end.
fn read_behind<R: Read>(
    reader: &mut R,
    bytes: &mut Vec<u8>,
    end: usize,
) -> Result<usize, StreamFault>
    requires { end < length bytes.old.items }
    ensures size { length bytes.new.items ≡ length bytes.old.items }
    ensures within { IfOk result (λ count. end + count ≤ length bytes.old.items) }
    ensures taken { IfOk result (λ count. Taken (R.remaining reader.old)
        (R.remaining reader.new) (take end bytes.old.items) (take (end + count) bytes.new.items)) }
    ensures end { IfOk result (λ count. count ≡ 0 → IsAtEnd (R.remaining reader.new)) }
    ensures front { take end bytes.new.items ≡ take end bytes.old.items }
    ensures kept { IfErr result (λ found. (found ≡ fault.Read)
        × Keeps (R.remaining reader.old) (R.remaining reader.new)) }
{
    read_some(reader, &mut bytes[end..])
}

impl<R: Read> Block<R> {
    ghost use Rattle.std.specs.Prelude.{◌≡◌, ◌≤◌, ◌^◌, length, drop, IfErr, OnOk};
    ghost use Rattle.std.specs.Io.KnownBytes.{Keeps};
    ghost use Rattle.stream_core.specs.Inner.Blocks.{HasEnough, bytes_of};
    ghost use Rattle.stream_core.specs.declared.faults.StreamFault.TheVariants as fault;

    /// The unread bytes.
    pub(crate) fn unread(&self) -> &[u8]
        ensures { result.now ≡ self.now.unread }
    {
        &self.bytes[self.start..self.end]
    }

    /// Passes over `count` unread bytes.
    pub(crate) fn skip(&mut self, count: usize)
        requires { count ≤ length self.old.unread }
        ensures unread { self.new.unread ≡ drop count self.old.unread }
        ensures remaining { self.new.remaining ≡ self.old.remaining }
    {
        self.start += count;
    }

    /// Reads until there are `LONGEST` unread bytes, as many as the longest line has, or the reader
    /// ends. `Read` if a read failed; the bytes that were read by then stay.
    pub(crate) fn fill(&mut self) -> Result<(), StreamFault>
        ensures same { Keeps (bytes_of self.old) (bytes_of self.new) }
        ensures enough { OnOk result (HasEnough self.new) }
        ensures ahead { length self.new.unread ≤ 2 ^ 16 }
        ensures fault { IfErr result (λ found. found ≡ fault.Read) }
    {
        if LONGEST <= self.end - self.start || self.ended {
            return Ok(());
        }
        self.refill()
    }

    /// Moves the unread bytes to the front of the block, and reads until there are `LONGEST` of
    /// them, or the reader ends. `Read` if a read failed.
    fn refill(&mut self) -> Result<(), StreamFault>
        ensures same { Keeps (bytes_of self.old) (bytes_of self.new) }
        ensures enough { OnOk result (HasEnough self.new) }
        ensures ahead { length self.new.unread ≤ 2 ^ 16 }
        ensures fault { IfErr result (λ found. found ≡ fault.Read) }
    {
        self.bytes.copy_within(self.start..self.end, 0);
        self.end -= self.start;
        self.start = 0;
        while self.end < LONGEST && !self.ended {
            let count = read_behind(&mut self.reader, &mut self.bytes, self.end)?;
            self.ended = count == 0;
            self.end += count;
        }
        Ok(())
    }
}

/// Makes a block for `reader`, and reads nothing yet. It takes memory for the block's bytes.
pub(crate) fn new_block<R: Read + Drop>(alloc: Global, reader: R) -> Result<Block<R>, AllocError>
    ensures { IfOk result (λ block. (block.unread ≡ [])
        × (block.remaining ≡ R.remaining reader)) }
{
    let bytes = vec![in alloc; 0u8; BLOCK]?;
    Ok(Block {
        reader,
        bytes,
        start: 0,
        end: 0,
        ended: false,
    })
}
