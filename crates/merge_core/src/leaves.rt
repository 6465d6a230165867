//! The leaves of a tree of joins: the lines of one dictionary each, read one after another.
ghost use Rattle.std.specs.Prelude.{◌≡◌, ◌<◌, ◌+◌, ◌^◌, ◌⊎◌, ℕ, [], List, Some, MatchResult, IfOk};
ghost use Rattle.std.specs.Prelude.{IfErr};
ghost use Rattle.shape_dict.specs.declared.entries.Entry.{Entry as One};
ghost use Rattle.shape_dict.specs.Contents.{Contents};
ghost use Rattle.shape_dict.specs.Reading.{IsTextOf};
ghost use Rattle.merge_core.specs.Entries.{IsNext, IsNextFault, WasNext};
ghost use Rattle.merge_core.specs.declared.entries.NextFault.TheVariants as fault;
ghost use Rattle.stream_core.specs.Streams.{HasGiven};
ghost use Rattle.merge_core.specs.Inner.Leaves.{HasLeft, HasCome};
ghost use Rattle.merge_core.specs.Inner.Judging.{IsTotalIn};

use crate::entries::{Entries, NextFault};
use crate::judged::Totals;
use crate::sources::Sources;
use shape_dict::Entry;
use std::alloc::Global;
use std::io::Read;
use stream_core::{Lines, StreamFault};

/// A leaf of a tree of joins: the lines still to be read of dictionary `number`, counted from 1.
#[derive(Drop)]
pub(crate) struct Leaf<R: Read> {
    pub(crate) number: usize,
    pub(crate) lines: Lines<R>,
}

impl<R: Read + Drop> Entries for Leaf<R> {
    ghost yields = { λ leaf entries. HasLeft leaf.lines entries };

    ghost came = { λ leaf entries. HasCome leaf.lines entries };

    fn next_entry(&mut self) -> Result<Option<Entry>, NextFault>
        ensures next { (entries : List One) → HasLeft self.old.lines entries
            → MatchResult result (IsNext (HasLeft self.new.lines) entries) (IsNextFault entries) }
        ensures came { IfOk result (WasNext (HasCome self.old.lines) (HasCome self.new.lines)) }
        ensures number { self.new.number ≡ self.old.number }
        ensures fault { IfErr result (λ found. found ≡ fault.Read self.old.number) }
    {
        match self.lines.next_entry() {
            Ok(next) => Ok(next),
            Err(_) => Err(NextFault::Read(self.number)),
        }
    }
}

/// Opens dictionary `n`, counted from 0, and returns its lines and its header's totals. `Memory` if
/// memory was refused; `Read` with `n + 1` if it can't be read or has no header at its front.
pub(crate) fn open_leaf<S: Sources>(
    alloc: Global,
    sources: &S,
    n: usize,
) -> Result<(Leaf<S::Reader>, Totals), NextFault>
    requires few { n + 1 < 2 ^ 64 }
    requires within { n < S.number sources.now }
    ensures left { (text : List ℕ) → (d : Contents) → S.bytes sources.now n ≡ Some text
        → IsTextOf d text → MatchResult result
        (λ p. (p.1.games ≡ d.games) × HasLeft p.0.lines d.entries) (IsNextFault d.entries) }
    ensures given { IfOk result (λ p. (text : List ℕ) → S.bytes sources.now n ≡ Some text
        → HasGiven p.0.lines text []) }
    ensures totals { IfOk result (λ p. IsTotalIn p.1 p.0.lines.header) }
    ensures number { IfOk result (λ p. p.0.number ≡ n + 1) }
    ensures fault { IfErr result (λ found. (found ≡ fault.Read (n + 1)) ⊎ (found ≡ fault.Memory)) }
{
    let Ok(reader) = sources.open(n) else {
        return Err(NextFault::Read(n + 1));
    };
    match Lines::open(alloc, reader) {
        Ok(lines) => {
            let header = lines.header();
            let totals = Totals {
                games: header.games,
                moves: header.moves,
                counts_diamonds: header.diamonds.is_some(),
            };
            Ok((
                Leaf {
                    number: n + 1,
                    lines,
                },
                totals,
            ))
        }
        Err(StreamFault::Memory) => Err(NextFault::Memory),
        Err(_) => Err(NextFault::Read(n + 1)),
    }
}
