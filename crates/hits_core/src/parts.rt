//! The hits of all games (times that a pattern was played or was there), which threads find in
//! parts.
ghost use Rattle.std.specs.Prelude.{◌≡◌, ◌<◌, IsOk, All, IfOk, IfErr, OnOk};
ghost use Rattle.std.specs.List.{flat_map};
ghost use Rattle.tally_core.specs.declared.faults.TallyFault.TheVariants as fault;
ghost use Rattle.hits_core.specs.Inner.Finding.{GrowsBy};
ghost use Rattle.hits_core.specs.Hits.{first_of};
ghost use Rattle.hits_core.specs.Inner.Parts.{AreMade, IsPart, hits_made};

use crate::finding::find_in;
use crate::found::Found;
use crate::games::Game;
use crate::hits::Hit;
use crate::searches::Sought;
use crate::wanted::Wanted;
use std::alloc::{AllocError, Global};
use std::thread;
use std::thread::Threads;
use tally_core::TallyFault;

/// Returns how many games a part has at most, if `games` games are divided into at most `threads`
/// parts: one at least. 0 threads count as 1.
fn part_length(games: usize, threads: usize) -> usize
    ensures { 0 < result }
{
    games.div_ceil(threads.max(1)).max(1)
}

/// Divides `games` into parts of consecutive games, one for each of at most `threads` threads, and
/// returns the first hits of each part, at most `most` (None for all), in the order of the parts. A
/// hit is a time that a pattern of `wanted` was played, or was there, as `sought` says. A part for
/// which memory was refused has the error in its place. `AllocError` if memory for the parts
/// themselves was refused.
fn made_parts<T: Threads + Sync>(
    rt: &T,
    alloc: Global,
    wanted: &Wanted,
    sought: Sought,
    most: Option<u64>,
    games: &[Game],
    threads: usize,
) -> Result<Vec<Result<Vec<Hit>, TallyFault>>, AllocError>
    ensures made { IfOk result (λ made. AreMade sought wanted.now most games.now made.items) }
    ensures fault { IfOk result (λ made.
        All (λ part. IfErr part (λ found. found ≡ fault.Memory)) made.items) }
{
    thread::map_chunks(
        rt,
        alloc,
        games,
        part_length(games.len(), threads),
        &|_, chunk: &[Game]| find_in(alloc, wanted, sought, most, chunk),
    )
}

/// Adds `hits` to `found`, up to as many as are asked for. The only error is `Memory`: memory was
/// refused.
fn push_all(found: &mut Found, hits: &[Hit]) -> Result<(), TallyFault>
    ensures grown { OnOk result (GrowsBy found.old found.new hits.now) }
    ensures fault { IfErr result (λ found. found ≡ fault.Memory) }
{
    for hit in hits {
        found.push(*hit)?;
    }
    Ok(())
}

/// Joins the hits of all parts in order, and returns the first of all, at most `most` (None for
/// all). `made` has the hits of each part, or its error; if a part has an error, the first such
/// error is returned.
fn joined(
    alloc: Global,
    most: Option<u64>,
    made: Vec<Result<Vec<Hit>, TallyFault>>,
) -> Result<Vec<Hit>, TallyFault>
    ensures ok { IfOk result (λ hits. hits.items ≡ first_of most (flat_map hits_made made.items)) }
    ensures all { OnOk result (All IsOk made.items) }
    ensures fault { All (λ part. IfErr part (λ found. found ≡ fault.Memory)) made.items
        → IfErr result (λ found. found ≡ fault.Memory) }
{
    let mut found = Found {
        hits: Vec::new(alloc),
        most,
    };
    for part in made {
        push_all(&mut found, &part?)?;
    }
    Ok(found.hits)
}

/// Returns the first hits in `games`, at most `most` (None for all): the times that a pattern of
/// `wanted` was played, or was there, as `sought` says. At most `threads` threads find them, and
/// the call waits until they have ended. It takes memory for the hits, and for each thread for one
/// game's board. The only error is `Memory`: memory was refused.
pub(crate) fn find_all<T: Threads + Sync>(
    rt: &T,
    alloc: Global,
    wanted: &Wanted,
    sought: Sought,
    most: Option<u64>,
    games: &[Game],
    threads: usize,
) -> Result<Vec<Hit>, TallyFault>
    ensures part { IfOk result (λ hits. IsPart sought wanted.now most games.now hits.items) }
    ensures fault { IfErr result (λ found. found ≡ fault.Memory) }
{
    let made = made_parts(rt, alloc, wanted, sought, most, games, threads)?;
    joined(alloc, most, made)
}
