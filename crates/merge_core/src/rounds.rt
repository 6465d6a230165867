//! Writes the text of a join range by range: the lines whose words (the numbers of patterns) lie
//! between two cuts, range after range.
ghost use Rattle.std.specs.Prelude.{◌≡◌, ◌≤◌, ◌+◌, ◌++◌, ℕ, List, length, vec_len, IfErr, MatchResult};
ghost use Rattle.std.specs.Io.KnownBytes.{Appends};
ghost use Rattle.shape_dict.specs.declared.entries.Entry.{Entry as One};
ghost use Rattle.merge_core.specs.Merge.{AreInputs, Took, written_of};
ghost use Rattle.merge_core.specs.Inner.Ranges.{AreParts, all_of};
ghost use Rattle.merge_core.specs.Inner.Writing.{IsStopped, lines_of};

use crate::cuts::Plan;
use crate::entries::NextFault;
use crate::faults::MergeFault;
use crate::forms::Form;
use crate::output::write_more;
use crate::printing::{Round, print_round};
use crate::sources::Sources;
use crate::writing::stopped;
use std::alloc::Global;
use std::io::Write;
use std::thread::{Threads, available_parallelism};

/// The most ranges of words that are counted or made at a time.
const MOST_THREADS: usize = 16;

/// Returns how many ranges of words are counted or made at a time: twice as many as there are
/// processors, so that no processor waits for the longest range, and at most 16. It is 1 if the
/// number of processors isn't known.
pub(crate) fn ranges_at_once<T: Threads>(rt: &T) -> usize
    ensures some { 1 ≤ result }
    ensures few { result ≤ 16 }
{
    match available_parallelism(rt) {
        Ok(count) => count.get().saturating_mul(2).clamp(1, MOST_THREADS),
        Err(_) => 1,
    }
}

/// The bytes of a join's header, and how many patterns the header says there are.
#[derive(Drop)]
pub(crate) struct Front {
    pub(crate) header: Vec<u8>,
    pub(crate) patterns: u64,
}

/// In how many bytes line feeds are counted at once: no count is over 255, the most that one byte
/// holds.
const CHUNK: usize = 255;

/// Returns how many line feeds a chunk of at most `CHUNK` bytes has. A sum in one byte lets the
/// processor compare sixteen bytes at once.
fn line_feeds(chunk: &[u8]) -> u8 {
    let mut count: u8 = 0;
    for byte in chunk {
        count = count.wrapping_add((*byte == b'\n') as u8);
    }
    count
}

/// Returns how many line feeds there are, one for each line.
fn count_lines(lines: &[u8]) -> u64 {
    let mut count: u64 = 0;
    for chunk in lines.chunks(CHUNK) {
        count = count.saturating_add(u64::from(line_feeds(chunk)));
    }
    count
}

/// Writes the header of a join, and the lines of its ranges of words in order. The lines of some
/// ranges at a time, at most 16, are made in threads, and then this thread writes them. Before
/// those of the last range are written, the number of all lines is compared with that of the
/// header: `Changed` if they differ. Other faults are `Write` if the writer failed, and those of
/// making lines.
pub(crate) fn write_ranges<T: Threads + Sync, S: Sources + Sync, W: Write>(
    rt: &T,
    alloc: Global,
    form: Form,
    sources: &S,
    plan: &Plan,
    front: &Front,
    writer: &mut W,
) -> Result<(), MergeFault>
    requires all { vec_len plan.now.headers ≡ S.number sources.now }
    ensures took { IfErr result (λ found.
        Took (W.contents writer.old) (W.contents writer.new) (written_of found)) }
    ensures known { (parts : List (List One)) → AreParts (S.bytes sources.now) plan.now 0 parts
        → length parts + 1 ≡ length plan.now.cuts.items → (inputs : List (List ℕ))
        → AreInputs (S.bytes sources.now) 0 inputs → length inputs ≡ length plan.now.headers.items
        → MatchResult result
        (λ _. Appends (W.contents writer.old) (W.contents writer.new)
        (front.now.header.items ++ lines_of form (all_of parts)))
        (IsStopped (W.contents writer.old) (W.contents writer.new)
        (front.now.header.items ++ lines_of form (all_of parts))) }
{
    let threads = ranges_at_once(rt);
    let cuts = plan.cuts.as_slice();
    let last = cuts.len().saturating_sub(1);
    let mut written = match write_more(writer, &front.header, 0) {
        Ok(count) => count,
        Err(fault) => return Err(fault),
    };
    let mut round = Round {
        from: 0,
        made: Vec::new(alloc),
    };
    let mut patterns: u64 = 0;
    for n in 0..last {
        if n % threads == 0 {
            let count = threads.min(last - n);
            round = match print_round(rt, alloc, sources, plan, form, n, count) {
                Ok(next) => next,
                Err(fault) => return Err(stopped(fault, written)),
            };
        }
        let lines = match round.lines_at(n) {
            Ok(lines) => lines,
            Err(fault) => return Err(stopped(fault, written)),
        };
        patterns = patterns.saturating_add(count_lines(lines));
        if n + 1 == last && patterns != front.patterns {
            return Err(stopped(NextFault::Changed, written));
        }
        written = match write_more(writer, lines, written) {
            Ok(count) => count,
            Err(fault) => return Err(fault),
        };
    }
    Ok(())
}
