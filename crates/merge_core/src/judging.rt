//! Checks dictionaries one after another: whether each is well-formed, and whether it can be added
//! to those before it.
ghost use Rattle.std.specs.Prelude.{◌≡◌, ◌+◌, ◌<◌, ◌≤◌, ◌^◌, ◌++◌};
ghost use Rattle.std.specs.Prelude.{◌∷◌, [], ℕ, List, Some, length, MatchResult};
ghost use Rattle.std.specs.Prelude.{OnOk, IfErr};
ghost use Rattle.shape_dict.specs.declared.entries.Entry.{Entry as One};
ghost use Rattle.shape_dict.specs.Reading.{IsTextOf};
ghost use Rattle.stream_core.specs.Faults.{IsStreamFault};
ghost use Rattle.stream_core.specs.Streams.{HasGiven, contents_of};
ghost use Rattle.merge_core.specs.Merge.{AreInputs, written_of};
ghost use Rattle.merge_core.specs.Inner.Folds.{there_in};
ghost use Rattle.merge_core.specs.Inner.Judging.{capped, numbered, IsJudged, IsOwnFault, HasJudged};
ghost use Rattle.merge_core.specs.Inner.Judging.{HasJoined};
ghost use Rattle.merge_core.specs.Inner.Judging.{IsJudgeFault, IsFaultAt};

use crate::counting::count_join;
use crate::entries::NextFault;
use crate::faults::MergeFault;
use crate::judged::{Judged, Totals, both_of};
use crate::sources::Sources;
use crate::tallies::Tally;
use crate::writing::stopped;
use shape_dict::DictFault;
use std::alloc::Global;
use std::io::Read;
use stream_core::{Lines, StreamFault};

/// Reads a text to its end. Returns how often its patterns were there in all, or 2^64 - 1 if that
/// is more, or else the text's first fault.
fn total_of<R: Read + Drop>(lines: &mut Lines<R>) -> Result<u64, StreamFault>
    ensures { (whole : List ℕ) → HasGiven lines.old whole [] → MatchResult result
        (λ there. (entries : List One) × IsTextOf (contents_of lines.old.header entries) whole
        × (there ≡ capped (there_in entries)))
        (IsStreamFault whole) }
{
    let mut there: u64 = 0;
    for _place in 0..u64::MAX {
        match lines.next_entry() {
            Ok(Some(entry)) => there = there.saturating_add(entry.there),
            Ok(None) => return Ok(there),
            Err(fault) => return Err(fault),
        }
    }
    Err(StreamFault::Read)
}

/// Turns a fault of a text into that of dictionary `n`, counted from 1, with no byte written.
fn numbered(fault: StreamFault, n: usize) -> MergeFault
    ensures value { result ≡ numbered n fault }
    ensures quiet { written_of result ≡ 0 }
{
    match fault {
        StreamFault::Dict(fault) => MergeFault::Dict { n, fault },
        StreamFault::Read => MergeFault::Read { n, written: 0 },
        StreamFault::Memory => MergeFault::Memory { written: 0 },
    }
}

/// Reads dictionary `n`, counted from 0, to its end, to check that it is well-formed. Returns its
/// totals and how often its patterns were there in all, or 2^64 - 1 if that is more. `Dict` with
/// `n` + 1 if it is not well-formed, `Read` if it can't be opened or read, `Memory` if memory was
/// refused.
fn judge_one<S: Sources>(alloc: Global, sources: &S, n: usize) -> Result<Judged, MergeFault>
    requires few { n + 1 < 2 ^ 64 }
    requires within { n < S.number sources.now }
    ensures quiet { IfErr result (λ found. written_of found ≡ 0) }
    ensures judged { (text : List ℕ) → S.bytes sources.now n ≡ Some text
        → MatchResult result (IsJudged text) (IsOwnFault text (n + 1)) }
{
    let Ok(reader) = sources.open(n) else {
        return Err(MergeFault::Read {
            n: n + 1,
            written: 0,
        });
    };
    let mut lines = match Lines::open(alloc, reader) {
        Ok(lines) => lines,
        Err(fault) => return Err(numbered(fault, n + 1)),
    };
    let header = lines.header();
    match total_of(&mut lines) {
        Ok(there) => Ok(Judged {
            totals: Totals {
                games: header.games,
                moves: header.moves,
                counts_diamonds: header.diamonds.is_some(),
            },
            there,
        }),
        Err(fault) => Err(numbered(fault, n + 1)),
    }
}

/// Checks that dictionary `n`, counted from 0, is well-formed and can be added to those before it,
/// whose totals are `before`. Returns the totals of all. If the patterns of all were there less
/// than 2^64 - 1 times together, no pattern's sum is too large; else the join is made, and not
/// written, to see whether one is.
fn judge_next<S: Sources>(
    alloc: Global,
    sources: &S,
    n: usize,
    before: Judged,
) -> Result<Judged, MergeFault>
    requires few { n + 1 < 2 ^ 64 }
    requires within { n < S.number sources.now }
    ensures quiet { IfErr result (λ found. written_of found ≡ 0) }
    ensures judged { (inputs : List (List ℕ)) → (input : List ℕ)
        → HasJudged (S.bytes sources.now) n before inputs → S.bytes sources.now n ≡ Some input
        → MatchResult result
        (λ both. HasJudged (S.bytes sources.now) (n + 1) both (inputs ++ input ∷ []))
        (IsFaultAt inputs input) }
{
    let next = match judge_one(alloc, sources, n) {
        Ok(next) => next,
        Err(fault) => return Err(fault),
    };
    let both = match both_of(before, next) {
        Ok(both) => both,
        Err(fault) => return Err(MergeFault::Dict { n: n + 1, fault }),
    };
    if both.there < u64::MAX {
        return Ok(both);
    }
    match count_join(alloc, sources, n + 1, None) {
        Ok(_) => Ok(both),
        Err(NextFault::Overflow) => Err(MergeFault::Dict {
            n: n + 1,
            fault: DictFault::Overflow,
        }),
        Err(NextFault::Read(n)) => Err(MergeFault::Read { n, written: 0 }),
        Err(NextFault::Changed) => Err(MergeFault::Changed { written: 0 }),
        Err(NextFault::Memory) => Err(MergeFault::Memory { written: 0 }),
    }
}

/// Checks the first `count` dictionaries in their order: that each is well-formed and can be added
/// to those before it. Returns the totals of all, and how often their patterns were there in all,
/// or 2^64 - 1 if that is more. The error is the first fault in that order.
fn judge_each<S: Sources>(alloc: Global, sources: &S, count: usize) -> Result<Judged, MergeFault>
    requires some { 1 ≤ count }
    requires few { count < 2 ^ 64 }
    requires all { count ≡ S.number sources.now }
    ensures quiet { IfErr result (λ found. written_of found ≡ 0) }
    ensures first { (inputs : List (List ℕ)) → AreInputs (S.bytes sources.now) 0 inputs
        → length inputs ≡ count → MatchResult result
        (λ judged. HasJudged (S.bytes sources.now) count judged inputs) (IsJudgeFault inputs) }
{
    let mut judged = match judge_one(alloc, sources, 0) {
        Ok(first) => first,
        Err(fault) => return Err(fault),
    };
    for n in 1..count {
        judged = match judge_next(alloc, sources, n, judged) {
            Ok(both) => both,
            Err(fault) => return Err(fault),
        };
    }
    Ok(judged)
}

/// Checks that all dictionaries are well-formed and can be joined. Returns the totals of their join
/// (its games and moves), and how many different squares and diamonds it keeps and how often these
/// were played. It keeps all patterns if `least` is None, else only squares that were there at
/// least `least` times. If reading all of them at once gives no join, they are checked one after
/// another. The error is then the first fault that this finds, or else that of reading them at
/// once. `Empty` if there is no dictionary.
pub(crate) fn judge_all<S: Sources>(
    alloc: Global,
    sources: &S,
    least: Option<u64>,
) -> Result<(Totals, Tally), MergeFault>
    ensures some { OnOk result (1 ≤ S.number sources.now) }
    ensures quiet { IfErr result (λ found. written_of found ≡ 0) }
    ensures first { (inputs : List (List ℕ)) → AreInputs (S.bytes sources.now) 0 inputs
        → length inputs ≡ S.number sources.now → MatchResult result
        (λ p. HasJoined (S.bytes sources.now) least p.0 p.1 inputs) (IsJudgeFault inputs) }
{
    let count = sources.count();
    if count == 0 {
        return Err(MergeFault::Empty);
    }
    let fault = match count_join(alloc, sources, count, least) {
        Ok(joined) => return Ok(joined),
        Err(fault) => fault,
    };
    match judge_each(alloc, sources, count) {
        Ok(_) => Err(stopped(fault, 0)),
        Err(first) => Err(first),
    }
}
