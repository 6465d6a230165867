//! From a reader to a writer: the hits of patterns in a collection, which are the times that they
//! were played or were there.
ghost use Rattle.std.specs.Prelude.{◌≡◌, ℕ, List, IfOk, IfErr};
ghost use Rattle.engine_core.specs.Runs.{HasRead, Wrote, IsRunFault};
ghost use Rattle.hits_core.specs.Hits.{first_of};
ghost use Rattle.hits_core.specs.Runs.{AreResults, IsHitsText, HasHitsText, IsHitsFault, IsAnswer};
ghost use Rattle.hits_core.specs.Inner.Reading.{IsReadFault};
ghost use Rattle.hits_core.specs.Inner.Runs.{limit_of};

use crate::hits::Hit;
use crate::parts::find_all;
use crate::reading::read_games;
use crate::results::Results;
use crate::searches::Search;
use crate::wanted::Wanted;
use crate::writing::text_of;
use engine_core::{Outcome, RunFault, read_input, write_output};
use std::alloc::Global;
use std::io::{Read, Write};
use std::thread::Threads;
use tally_core::TallyFault;

/// Returns the `RunFault` for a fault of reading games or finding hits: a fault of the SGF is kept,
/// and any other becomes `Memory`.
fn run_fault(fault: TallyFault) -> RunFault
    ensures { (input : List ℕ) → IsReadFault input fault → IsHitsFault input result }
{
    match fault {
        TallyFault::Sgf(fault) => RunFault::Sgf(fault),
        TallyFault::Memory | TallyFault::BadSettings | TallyFault::Overflow => { RunFault::Memory }
    }
}

/// Returns how many hits have to be looked for if at most `most` are listed (None for all): one at
/// least, since the outcome says whether there is any hit.
fn limit_of(most: Option<u64>) -> Option<u64>
    ensures { result ≡ limit_of most }
{
    match most {
        None => None,
        Some(most) => Some(most.max(1)),
    }
}

/// Returns the outcome of a search: `Done` if there is a hit, else `NotFound`.
fn outcome_of(hits: &[Hit]) -> Outcome
    ensures { IsAnswer result hits.now }
{
    if hits.is_empty() {
        Outcome::NotFound
    } else {
        Outcome::Done
    }
}

/// Drops all hits but the first `most` (None keeps all).
fn cut(hits: &mut Vec<Hit>, most: Option<u64>)
    ensures { hits.new.items ≡ first_of most hits.old.items }
{
    match most {
        Some(most) if most < hits.len() as u64 => hits.truncate(most as usize),
        _ => {}
    }
}

/// Reads the games of `input` and finds hits of `wanted` in them with at most `workers` threads.
/// Returns the games, the report on the input's trees, and the first hits, at most as many as
/// `search` lists.
fn find<T: Threads + Sync>(
    rt: &T,
    alloc: Global,
    wanted: &Wanted,
    search: Search<'_>,
    workers: usize,
    input: &[u8],
) -> Result<Results, TallyFault>
    ensures results { IfOk result (AreResults search.entry wanted.now input.now) }
    ensures fault { IfErr result (IsReadFault input.now) }
{
    let (games, report) = read_games(alloc, input, search.first)?;
    let limit = limit_of(search.most);
    let mut hits = find_all(rt, alloc, wanted, search.sought, limit, &games, workers)?;
    let outcome = outcome_of(&hits);
    cut(&mut hits, search.most);
    Ok(Results {
        outcome,
        report,
        games,
        hits,
    })
}

/// Finds the hits in `input`, and returns the text with a line for each of the first of them, at
/// most as many as `search` lists, and the results: games, report and hits.
fn hits_text<T: Threads + Sync>(
    rt: &T,
    alloc: Global,
    wanted: &Wanted,
    search: Search<'_>,
    workers: usize,
    input: &[u8],
) -> Result<(Vec<u8>, Results), RunFault>
    ensures text { IfOk result (λ p. IsHitsText search.entry wanted.now p.1 input.now p.0.items) }
    ensures fault { IfErr result (IsHitsFault input.now) }
{
    let results = match find(rt, alloc, wanted, search, workers, input) {
        Ok(results) => results,
        Err(fault) => return Err(run_fault(fault)),
    };
    let text = text_of(alloc, search, &results.hits)?;
    Ok((text, results))
}

/// Reads a collection and writes a line for each hit: each time that a pattern of `wanted` was
/// played, or was there, as `search.sought` says. Returned are the games, the report on the trees
/// of the input, the hits that are written, and whether there is any. If there is none, nothing is
/// written.
///
/// The lines are in the order of games, moves and points (row by row from the top, each row from
/// the left), at one point the square before the diamond. A line has the game's number, the number
/// of the move, the point, who was to move, the byte index at which the game's tree begins, and the
/// name of the file if it has one. The first game has the number `search.first`.
///
/// If at most `search.most` hits are asked for, the first of all are written. A thread that has
/// found that many, and one at least, replays no further game; the whole input is checked to be
/// well-formed all the same. Games are numbered and replayed as by `shapes count`. At most
/// `workers` threads replay them; the text is the same whatever their number.
///
/// It takes memory for the input, for the records of all games, for a tree at a time, for each
/// thread for a board, for the hits, and for their lines.
///
/// # Errors
///
/// `Read` if the reader failed. `Memory` if memory was refused: the collection may be well-formed
/// or not, since memory is asked for first. Else `Sgf` with S4 if the collection has more than 2^28
/// bytes, else with its first fault of syntax (S1 truncated tree, S2 bad byte, S3 no value).
/// Nothing is written then. `Write` if the writer failed: it has the exact number of bytes of the
/// text that were written.
pub fn run_hits<T: Threads + Sync, R: Read, W: Write>(
    rt: &T,
    alloc: Global,
    wanted: &Wanted,
    search: Search<'_>,
    workers: usize,
    reader: &mut R,
    writer: &mut W,
) -> Result<Results, RunFault>
    ensures read { HasRead result (R.remaining reader.old) (R.remaining reader.new) }
    ensures done { IfOk result (λ results. Wrote (IsHitsText search.entry wanted.now results)
        (R.remaining reader.old) (W.contents writer.old) (W.contents writer.new)) }
    ensures fault { IfErr result (IsRunFault (HasHitsText search.entry wanted.now) IsHitsFault
        (R.remaining reader.old) (W.contents writer.old) (W.contents writer.new)) }
{
    let input = read_input(alloc, reader)?;
    let (text, results) = hits_text(rt, alloc, wanted, search, workers, &input)?;
    write_output(writer, &text)?;
    Ok(results)
}
