//! A dictionary's text, read line by line.
use crate::blocks::{Block, new_block};
use crate::faults::StreamFault;
use crate::progress::{Progress, start};
use crate::standing::{Standing, standing_of};
use crate::steps::{next, take_header};
use shape_dict::{Entry, Header};
use std::alloc::Global;
use std::io::Read;
use std::marker::Model;

/// A dictionary's text, read from a reader: first its header, and then its entries, one after
/// another. A block of 65,536 of its bytes is in memory.
#[derive(Drop)]
pub struct Lines<R: Read> {
    block: Block<R>,
    header: Header,
    /// What is remembered of the entries that were read.
    progress: Progress,
    /// Whether more entries may come.
    standing: Standing,
}

impl<R: Read> Model for Lines<R> {
    ghost use Rattle.stream_core.specs.Streams.{Stream};
    ghost use Rattle.stream_core.specs.Inner.Steps.{IsKept};

    ghost Value = { Stream };

    ghost view = { λ l. record {
      unread = l.block.unread;
      remaining = l.block.remaining;
      header = l.header;
      progress = l.progress;
      standing = l.standing;
    } };

    ghost invariant = { λ l. IsKept l.block.unread l.progress l.standing };
}

impl<R: Read + Drop> Lines<R> {
    ghost use Rattle.std.specs.Prelude.{◌≡◌, ◌≢◌, ◌≤◌, ◌+◌, ◌^◌, [], List, ℕ, length, IfOk, IfErr};
    ghost use Rattle.std.specs.Prelude.{IfSome};
    ghost use Rattle.shape_core.specs.Symmetry.{least_image};
    ghost use Rattle.shape_dict.specs.Contents.{Contents};
    ghost use Rattle.shape_dict.specs.Reading.{IsTextOf, IsLine, IsAbove};
    ghost use Rattle.shape_dict.specs.declared.entries.Entry.{Entry as Item};
    ghost use Rattle.stream_core.specs.Faults.{IsOpenFault};
    ghost use Rattle.stream_core.specs.Streams.{HasGiven, IsOpenOf, IsNext, given_after};
    ghost use Rattle.stream_core.specs.Streams.{standing_of};
    ghost use Rattle.stream_core.specs.declared.faults.StreamFault.TheVariants as fault;
    ghost use Rattle.stream_core.specs.declared.standing.Standing.TheVariants as standing;

    /// Opens a text and reads its header. It takes memory for a block of 65,536 bytes, and reads at
    /// most as many.
    ///
    /// # Errors
    ///
    /// `Memory` if memory was refused, `Read` if a read failed, and else `Dict` with `BadHeader` if
    /// the bytes don't begin with a header.
    pub fn open(alloc: Global, reader: R) -> Result<Lines<R>, StreamFault>
        ensures given { IfOk result (λ lines. IfSome (R.remaining reader)
            (λ whole. HasGiven lines whole [])) }
        ensures more { IfOk result (λ lines. lines.standing ≡ standing.More) }
        ensures only { (contents : Contents) → IfSome (R.remaining reader)
            (λ whole. IsTextOf contents whole → IsOpenOf contents result) }
        ensures fault { IfErr result (IsOpenFault (R.remaining reader)) }
        ensures ahead { IfOk result (λ lines. length lines.unread ≤ 2 ^ 16) }
    {
        let Ok(mut block) = new_block(alloc, reader) else {
            return Err(StreamFault::Memory);
        };
        let header = match take_header(&mut block) {
            Ok(header) => header,
            Err(found) => return Err(found),
        };
        Ok(Lines {
            block,
            header,
            progress: start(),
            standing: Standing::More,
        })
    }

    /// Returns what the text's header says.
    pub fn header(&self) -> Header
        ensures { result ≡ self.now.header }
    {
        self.header
    }

    /// Reads and returns the next entry, or None after the last one, if the text is well-formed to
    /// its end. It takes no memory.
    ///
    /// # Errors
    ///
    /// `Dict` with the first fault of the text, the one that `Dictionary::read` would return,
    /// except that the text may have any size; `Read` if a read failed. After an error, and after
    /// None, each later call returns the same.
    pub fn next_entry(&mut self) -> Result<Option<Entry>, StreamFault>
        ensures given { (whole : List ℕ) → (entries : List Item) → HasGiven self.old whole entries
            → HasGiven self.new whole (given_after entries result) }
        ensures only { (whole : List ℕ) → (entries : List Item) → (contents : Contents)
            → HasGiven self.old whole entries → IsTextOf contents whole
            → IsNext contents entries result }
        ensures stands { self.new.standing ≡ standing_of result }
        ensures again { self.old.standing ≢ standing.More
            → (standing_of result ≡ self.old.standing) × (self.new ≡ self.old) }
        ensures header { self.new.header ≡ self.old.header }
        ensures line { IfOk result (λ answer. IfSome answer (λ entry.
            IsLine self.old.header self.old.progress.given entry
            × IsAbove self.old.progress.last entry.shape
            × (least_image entry.shape ≡ entry.shape))) }
        ensures count { IfOk result (λ answer. IfSome answer (λ entry.
            (self.new.progress.given ≡ self.old.progress.given + 1)
            × (self.new.progress.last ≡ Some entry.shape))) }
        ensures memory { IfErr result (λ found. found ≢ fault.Memory) }
        ensures ahead { length self.new.unread ≤ 2 ^ 16 }
    {
        match self.standing {
            Standing::More => {}
            Standing::Ended => return Ok(None),
            Standing::Failed(found) => return Err(found),
        }
        let answer = next(&mut self.block, &self.header, &mut self.progress);
        self.standing = standing_of(&answer);
        answer
    }
}
