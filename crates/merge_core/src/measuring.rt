//! Counts in threads how many patterns are in ranges of words (lines are in the order of their
//! words), and how often they were played.
ghost use Rattle.std.specs.Prelude.{◌≡◌, ◌<◌, ◌+◌, ◌*◌, ◌/◌, ◌%◌, ◌^◌, ℕ, List, Option, min, IfOk, length};
ghost use Rattle.std.specs.Prelude.{vec_len};
ghost use Rattle.std.specs.Thread.{IsSend, IsSync};
ghost use Rattle.merge_core.specs.declared.cuts.Plan.{Plan as Cuts};
ghost use Rattle.merge_core.specs.Inner.Ranges.{IsRanged};
ghost use Rattle.merge_core.specs.Inner.Blocks.{AreBlocks};
ghost use Rattle.merge_core.specs.Inner.Tallies.{sum_of, sums};

use crate::cuts::Plan;
use crate::entries::NextFault;
use crate::ranges::join_at;
use crate::sources::Sources;
use crate::tallies::{Tally, both_tallies, count_of, each_tally};
use std::alloc::{AllocError, Global};
use std::thread::{Threads, map_indices};

/// The tallies of a range of words (how many squares and diamonds it has, and how often these were
/// played): of what the join keeps, and of each dictionary by itself.
#[derive(Drop)]
pub(crate) struct Ranged {
    pub(crate) joined: Tally,
    pub(crate) each: Vec<Tally>,
}

/// Counts the patterns in the range of words from cut `n`, counted from 0, up to the next cut, and
/// how often they were played. Returns the tallies of the join and of each dictionary. A cut is the
/// word and the byte indices at which a range begins.
fn count_one<S: Sources>(
    alloc: Global,
    sources: &S,
    plan: &Plan,
    n: usize,
) -> Result<Ranged, NextFault>
    requires all { vec_len plan.now.headers ≡ S.number sources.now }
    requires few { n + 1 < 2 ^ 64 }
    ensures { IfOk result (IsRanged (S.bytes sources.now) plan.now n (n + 1)) }
{
    let mut each = Vec::new(alloc);
    let joined = match join_at(alloc, sources, plan, n, &mut each) {
        Ok(joined) => joined,
        Err(fault) => return Err(fault),
    };
    let Some(tally) = count_of(plan.least, &joined.entries) else {
        return Err(NextFault::Overflow);
    };
    Ok(Ranged {
        joined: tally,
        each,
    })
}

/// Copies the tallies of a range of words into memory of their own. `Memory` if it was refused.
fn copied(alloc: Global, ranged: &Ranged) -> Result<Ranged, NextFault>
    ensures joined { IfOk result (λ copy. copy.joined ≡ ranged.now.joined) }
    ensures each { IfOk result (λ copy. copy.each.items ≡ ranged.now.each.items) }
{
    match ranged.each.as_slice().to_vec(alloc) {
        Ok(each) => Ok(Ranged {
            joined: ranged.joined,
            each,
        }),
        Err(_) => Err(NextFault::Memory),
    }
}

/// Returns the sums of the tallies of two ranges of words that follow one another. `Overflow` if a
/// sum is over 2^64 - 1, `Memory` if memory was refused.
fn both_ranged(alloc: Global, left: &Ranged, right: &Ranged) -> Result<Ranged, NextFault>
    ensures joined { IfOk result (λ both. both.joined ≡ sum_of left.now.joined right.now.joined) }
    ensures each { IfOk result (λ both. both.each.items
        ≡ sums left.now.each.items right.now.each.items) }
{
    let Some(joined) = both_tallies(left.joined, right.joined) else {
        return Err(NextFault::Overflow);
    };
    match each_tally(alloc, &left.each, &right.each) {
        Ok(each) => Ok(Ranged { joined, each }),
        Err(fault) => Err(fault),
    }
}

/// Counts the patterns in the ranges of words from cut `from` up to cut `to`, one range after
/// another in this thread, and returns the sums of their tallies. A range begins at a cut and ends
/// before the next one; cuts are counted from 0.
fn count_ranges<S: Sources>(
    alloc: Global,
    sources: &S,
    plan: &Plan,
    from: usize,
    to: usize,
) -> Result<Ranged, NextFault>
    requires all { vec_len plan.now.headers ≡ S.number sources.now }
    requires some { from < to }
    ensures { IfOk result (IsRanged (S.bytes sources.now) plan.now from to) }
{
    let mut total = match count_one(alloc, sources, plan, from) {
        Ok(first) => first,
        Err(fault) => return Err(fault),
    };
    for n in from + 1..to {
        let next = match count_one(alloc, sources, plan, n) {
            Ok(next) => next,
            Err(fault) => return Err(fault),
        };
        total = match both_ranged(alloc, &total, &next) {
            Ok(both) => both,
            Err(fault) => return Err(fault),
        };
    }
    Ok(total)
}

/// Counts block number `block`, from 0: `size` ranges of words that follow one another, or in the
/// last block those that are left before cut `last`. Returns the sums of their tallies.
fn count_block<S: Sources>(
    alloc: Global,
    sources: &S,
    plan: &Plan,
    block: usize,
    size: usize,
    last: usize,
) -> Result<Ranged, NextFault>
    requires all { vec_len plan.now.headers ≡ S.number sources.now }
    requires some { block * size < last }
    requires size { 0 < size }
    requires few { size < 2 ^ 32 }
    requires low { last < 2 ^ 32 }
    ensures { IfOk result (IsRanged (S.bytes sources.now) plan.now (min last (block * size))
        (min last ((block + 1) * size))) }
{
    let from = block * size;
    count_ranges(alloc, sources, plan, from, last.min(from + size))
}

/// Counts the patterns in all ranges of words from cut 0 up to cut `last`, in blocks of `size`
/// ranges: each block in a thread of its own if one can be started. The final block may have fewer
/// ranges. Returns, in their order, the tallies of each block, or its fault. `AllocError` if memory
/// for this list was refused.
fn blocks_of<T: Threads + Sync, S: Sources + Sync>(
    rt: &T,
    alloc: Global,
    sources: &S,
    plan: &Plan,
    size: usize,
    last: usize,
) -> Result<Vec<Result<Ranged, NextFault>>, AllocError>
    requires all { vec_len plan.now.headers ≡ S.number sources.now }
    requires size { 0 < size }
    requires few { size < 2 ^ 32 }
    requires low { last < 2 ^ 32 }
    ensures len { IfOk result (λ blocks. length blocks.items ≡ last / size + min 1 (last % size)) }
    ensures each { IfOk result (λ blocks. AreBlocks (S.bytes sources.now) plan.now
        (λ i. min last (i * size)) blocks.items) }
{
    map_indices(
        rt,
        alloc,
        last.div_ceil(size),
        &|block: usize| -> Result<Ranged, NextFault>
            requires { IsSync S.row × IsSend S.Reader.row
                × (vec_len plan.now.headers ≡ S.number sources.now) × (0 < size)
                × (size < 2 ^ 32) × (last < 2 ^ 32) × (block * size < last) }
            ensures { IfOk result (IsRanged (S.bytes sources.entry.now) plan.entry.now
                (min last (block * size)) (min last ((block + 1) * size))) }
        { count_block(alloc, sources, plan, block, size, last) },
    )
}

/// Returns the sums of the tallies of blocks of ranges of words that follow one another. The error
/// is that of the first block that has one, or `Changed` if there is no block, or a fault of
/// adding.
fn sum_up(alloc: Global, blocks: &[Result<Ranged, NextFault>]) -> Result<Ranged, NextFault>
    ensures { (bytes : ℕ → Option (List ℕ)) → (plan : Cuts) → (end : ℕ → ℕ)
        → AreBlocks bytes plan end blocks.now
        → IfOk result (IsRanged bytes plan (end 0) (end (length blocks.now))) }
{
    let count = blocks.len();
    if count == 0 {
        return Err(NextFault::Changed);
    }
    let mut total = match &blocks[0] {
        Ok(first) => match copied(alloc, first) {
            Ok(first) => first,
            Err(fault) => return Err(fault),
        },
        Err(fault) => return Err(*fault),
    };
    for place in 1..count {
        let next = match &blocks[place] {
            Ok(next) => next,
            Err(fault) => return Err(*fault),
        };
        total = match both_ranged(alloc, &total, next) {
            Ok(both) => both,
            Err(fault) => return Err(fault),
        };
    }
    Ok(total)
}

/// Counts the `last` ranges of words of a plan between cut 0 and cut `last`, in about `threads`
/// threads if they can be started. It waits for them, and returns the sums of all tallies.
pub(crate) fn count_all<T: Threads + Sync, S: Sources + Sync>(
    rt: &T,
    alloc: Global,
    sources: &S,
    plan: &Plan,
    last: usize,
    threads: usize,
) -> Result<Ranged, NextFault>
    requires all { vec_len plan.now.headers ≡ S.number sources.now }
    requires some { 0 < last }
    requires few { last < 2 ^ 32 }
    ensures { IfOk result (IsRanged (S.bytes sources.now) plan.now 0 last) }
{
    let size = last.div_ceil(threads.max(1));
    let Ok(blocks) = blocks_of(rt, alloc, sources, plan, size, last) else {
        return Err(NextFault::Memory);
    };
    sum_up(alloc, &blocks)
}
