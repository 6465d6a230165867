//! `count`: from the bytes of a collection to a text of the dictionary of its games.
ghost use Rattle.std.specs.Prelude.{◌^◌, IfOk, IfErr};
ghost use Rattle.shape_dict.specs.Parts.{joined};
ghost use Rattle.count_core.specs.Counts.{IsCountText, HasCountText, IsCountRunFault};
ghost use Rattle.engine_core.specs.Runs.{HasRead, Wrote, IsRunFault};

use engine_core::{RunFault, read_input, write_parts};
use harvest_core::{Gate, harvest};
use shape_dict::Text;
use std::alloc::Global;
use std::io::{Read, Write};
use std::sync::Wait;
use std::thread::Threads;
use tally_core::{Report, Settings};

/// The least number of threads that make a text, even if one worker counts, since counting is over
/// by then. It is more than most machines have processors, since the parts of a text are not ready
/// at one time.
const LEAST_THREADS: usize = 8;

/// The greatest number of threads that make a text. With more, each part would be too small for
/// large pages.
const MOST_THREADS: usize = 16;

/// Counts the collection `input`. Returns the text of the dictionary of its games, in parts that
/// follow one another, and how many of its trees are games, of other games, or refused. `gate`
/// learns which worker is about to count which game. It takes memory for what `harvest` takes and
/// for the text.
#[tactic(auto, using(crate::proofs::Order::comes_first))]
fn counted_text<T: Threads + Wait + Sync, G: Gate>(
    rt: &T,
    alloc: Global,
    settings: Settings,
    text: Text,
    gate: &G,
    input: &[u8],
) -> Result<(Vec<Vec<u8>>, Report), RunFault>
    ensures written { IfOk result (λ p. IsCountText (2 ^ settings.k) settings.kinds text p.1
        input.now (joined p.0.items)) }
    ensures fault { IfErr result (IsCountRunFault (2 ^ settings.k) settings.kinds input.now) }
{
    let counted = harvest(rt, alloc, settings, input, gate)?;
    let threads = usize::from(settings.workers()).clamp(LEAST_THREADS, MOST_THREADS);
    let written = counted.dictionary.parts(rt, alloc, text, threads)?;
    Ok((written, counted.report))
}

/// Reads a collection, writes a text of the dictionary of its games, and returns how many of its
/// trees are games of Go, are of other games, and are refused.
///
/// The kinds of pattern that are counted are those of the settings: if diamonds are not counted,
/// texts 2 and 3 say so, and text 1 is that of the squares. The text is the same for every number
/// of workers. `harvest` counts, and says on how many threads; 8 to 16 threads, as many as there
/// are workers, make the text in parts that are written one after another. It takes memory for the
/// input, for what `harvest` takes, and for the text.
///
/// The gate is for a test or a display of progress: it learns which worker is about to count which
/// game. It does not change the result. That the call ends rests on a promise that no contract
/// states: that the calls which wait for another thread end (`harvest` says which calls wait).
///
/// # Errors
///
/// `Read` if the reader failed. `Memory` if memory for the input was refused, `Harvest` with
/// `Memory` (F6) if memory for counting was, and `Dict` with 1 and `Memory` (X6) if memory for the
/// text of a collection that was counted was. Else `Harvest` with `TooLarge` (S4) if the collection
/// has more than 2^28 bytes, else with its first fault of syntax (S1 to S3), else with `Full` (F1)
/// if it has more than 2^k patterns, k being in the settings: it names the pattern with which they
/// first become more, in the order in which the replays of the games meet them, and the first game
/// that has it. The input and the settings alone determine which of these comes. Nothing is written
/// then. `Write` if the writer failed: exactly as many bytes of the text are written as the fault
/// says. No other fault comes.
pub fn run_count<T: Threads + Wait + Sync, G: Gate, R: Read, W: Write>(
    rt: &T,
    alloc: Global,
    settings: Settings,
    text: Text,
    gate: &G,
    reader: &mut R,
    writer: &mut W,
) -> Result<Report, RunFault>
    ensures read { HasRead result (R.remaining reader.old) (R.remaining reader.new) }
    ensures done { IfOk result (λ report.
        Wrote (IsCountText (2 ^ settings.k) settings.kinds text report)
        (R.remaining reader.old) (W.contents writer.old) (W.contents writer.new)) }
    ensures fault { IfErr result (IsRunFault (HasCountText (2 ^ settings.k) settings.kinds text)
        (IsCountRunFault (2 ^ settings.k) settings.kinds)
        (R.remaining reader.old) (W.contents writer.old) (W.contents writer.new)) }
{
    let input = read_input(alloc, reader)?;
    let (written, report) = counted_text(rt, alloc, settings, text, gate, &input)?;
    write_parts(writer, &written)?;
    Ok(report)
}
