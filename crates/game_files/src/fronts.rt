//! A reader that keeps the first bytes that it gives.
use crate::causes::{Cause, cause_of};
use std::io::{self, Read};
use std::marker::Model;

/// How many first bytes are kept.
const KEPT: usize = 8;

/// A reader that reads from another one, and keeps its first eight bytes, or all if they are fewer.
/// It takes no memory.
#[derive(Drop)]
pub struct Fronted<'a, R: Read> {
    reader: &'a mut R,
    /// The bytes that are kept, the first `kept` of these eight; those after them mean nothing.
    front: [u8; 8],
    /// How many bytes are kept so far.
    kept: usize,
}

impl<'a, R: Read> Model for Fronted<'a, R> {
    ghost use Rattle.std.specs.Prelude.{◌≤◌, take};
    ghost use Rattle.game_files.specs.Fronts.{Front};

    ghost Value = { Front };

    ghost view = { λ f. record {
      kept = take f.kept f.front;
      remaining = R.remaining f.reader.now;
    } };

    ghost invariant = { λ f. f.kept ≤ 8 };
}

impl<'a, R: Read> Fronted<'a, R> {
    ghost use Rattle.std.specs.Prelude.{◌≡◌, [], List, ℕ};
    ghost use Rattle.game_files.specs.Causes.{cause_of};
    ghost use Rattle.game_files.specs.Fronts.{kept_after, IsFrontOf};

    /// Wraps a reader: the new one gives the same bytes, and has kept none yet.
    pub fn new(reader: &'a mut R) -> Fronted<'a, R>
        ensures kept { result.kept ≡ [] }
        ensures remaining { result.remaining ≡ R.remaining reader.old }
    {
        Fronted {
            reader,
            front: [0; KEPT],
            kept: 0,
        }
    }

    /// Keeps the first of `bytes`, as many as there is room for in the eight that are kept.
    fn keep(&mut self, bytes: &[u8])
        ensures kept { self.new.kept ≡ kept_after self.old.kept bytes.now }
        ensures remaining { self.new.remaining ≡ self.old.remaining }
    {
        let count = bytes.len().min(KEPT - self.kept);
        let end = self.kept + count;
        self.front[self.kept..end].copy_from_slice(&bytes[..count]);
        self.kept = end;
    }

    /// Returns what the input may be if it has no tree of SGF, such as packed by gzip: `cause_of`
    /// the first eight bytes that were read so far, or all if they are fewer.
    pub fn cause(&self) -> Cause
        ensures kept { result ≡ cause_of self.now.kept }
        ensures given { (given : List ℕ) → IsFrontOf self.now.kept given
            → result ≡ cause_of given }
    {
        cause_of(&self.front[..self.kept])
    }
}

impl<R: Read> Read for Fronted<'_, R> {
    ghost use Rattle.std.specs.Prelude.{◌≡◌, ◌++◌, List, ℕ, take, IfOk, OnErr};
    ghost use Rattle.std.specs.Io.{ReadsAtMost};
    ghost use Rattle.std.specs.Io.KnownBytes.{ReadConsumes};
    ghost use Rattle.game_files.specs.Fronts.{kept_after, IsFrontOf};

    ghost remaining = { λ f. f.remaining };

    /// Reads what the other reader gives. Nothing is kept if it fails.
    fn read(&mut self, buf: &mut [u8]) -> io::Result<usize>
        ensures bound { ReadsAtMost result buf.new }
        ensures bytes { ReadConsumes self.old.remaining self.new.remaining result buf.new }
        ensures kept { IfOk result (λ count. self.new.kept
            ≡ kept_after self.old.kept (take count buf.new)) }
        ensures front { (given : List ℕ) → IsFrontOf self.old.kept given
            → IfOk result (λ count. IsFrontOf self.new.kept (given ++ take count buf.new)) }
        ensures same { OnErr result (self.new.kept ≡ self.old.kept) }
    {
        let count = self.reader.read(buf)?;
        self.keep(&buf[..count]);
        Ok(count)
    }
}
